// The one public call: the file of an image.

ghost use Rattle.std.specs.Prelude.{◌≡◌, ◌≢◌, length, IfOk, IfErr, OnOk};
ghost use Rattle.rt_native.specs.File.{file, FitsFile};
ghost use Rattle.rt_native.specs.Fitting.{IsRegion, Fits, IsUnfit, Reaches};
ghost use Rattle.rt_native.specs.Inside.Laid.{laid_out, IsUnwritten};
ghost use Rattle.rt_native.specs.Symbols.{executable as executable_of};

use crate::layout::{Layout, lay_out};
use crate::object::object;
use crate::program::{text, values};
use crate::symbols::{marks, symbols};
use crate::target::{Target, Unfit};
use rt_code::Image;
use rt_elf::{Executable, elf_bytes, is_linkable, is_short, object_bytes};
use std::alloc::Global;

/// The file of an image for a target: an executable, or an object for a linker where functions of C are called. There
/// is none where the image does not fit.
pub fn native(alloc: Global, image: &Image, target: &Target) -> Result<Vec<u8>, Unfit>
    requires flash { IsRegion target.now.flash }
    requires ram { IsRegion target.now.ram }
    ensures bytes { IfOk result (λ bytes. bytes.items ≡ file image.now target.now) }
    ensures fits { OnOk result (Fits image.now target.now) }
    ensures unfit { IfErr result (IsUnfit image.now target.now) }
{
    let layout = lay_out(alloc, image, target)?;
    if target.calls.is_empty() {
        write_executable(alloc, image, target, &layout)
    } else {
        write_object(alloc, image, target, &layout)
    }
}

/// The executable of an image that lies so, as a file.
fn write_executable(
    alloc: Global,
    image: &Image,
    target: &Target,
    layout: &Layout,
) -> Result<Vec<u8>, Unfit>
    requires laid { layout.now ≡ laid_out image.now target.now }
    requires alone { length target.now.calls ≡ 0 }
    ensures bytes { IfOk result (λ bytes. bytes.items ≡ file image.now target.now) }
    ensures fits { OnOk result (Reaches image.now target.now × FitsFile image.now target.now) }
    ensures unfit { IfErr result (IsUnwritten image.now target.now) }
{
    let executable = assemble(alloc, image, target, layout)?;
    if !is_short(&executable) {
        return Err(Unfit::File);
    }
    Ok(elf_bytes(alloc, &executable)?)
}

/// The object of an image that lies so, as a file.
fn write_object(
    alloc: Global,
    image: &Image,
    target: &Target,
    layout: &Layout,
) -> Result<Vec<u8>, Unfit>
    requires laid { layout.now ≡ laid_out image.now target.now }
    requires calling { length target.now.calls ≢ 0 }
    ensures bytes { IfOk result (λ bytes. bytes.items ≡ file image.now target.now) }
    ensures fits { OnOk result (Reaches image.now target.now × FitsFile image.now target.now) }
    ensures unfit { IfErr result (IsUnwritten image.now target.now) }
{
    let object = object(alloc, image, target, layout)?;
    if !is_linkable(&object) {
        return Err(Unfit::File);
    }
    Ok(object_bytes(alloc, &object)?)
}

/// The executable of an image that lies so.
fn assemble(
    alloc: Global,
    image: &Image,
    target: &Target,
    layout: &Layout,
) -> Result<Executable, Unfit>
    requires { layout.now ≡ laid_out image.now target.now }
    ensures ok { IfOk result (λ made. made ≡ executable_of image.now target.now) }
    ensures reaches { OnOk result (Reaches image.now target.now) }
    ensures unfit { IfErr result (λ why. why ≢ Unfit.NoMemory →
        (why ≡ Unfit.Reach) × (¬ Reaches image.now target.now)) }
{
    Ok(Executable {
        entry: layout.reset.wrapping_add(1),
        text_address: target.flash.address,
        text: text(alloc, image, target, layout)?,
        data_address: layout.outside.cells,
        data_load: layout.load,
        values: values(alloc, image)?,
        stack_address: target.ram.address,
        stack_bytes: layout.stack_room,
        marks: marks(alloc, image, target, layout)?,
        symbols: symbols(alloc, image, target, layout)?,
    })
}
