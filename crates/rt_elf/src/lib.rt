// The bytes of an executable in the form of ELF, for 32 bits, and of an object for a linker.
// Promises: the bytes are those of the definition, in the field's terms.
// Stands on: rt_ids.
// Read next: specs/File.antt and specs/Headers.antt, and specs/Linking.antt for objects.
#![tactic(auto)]

pub mod executable;
mod file;
mod headers;
pub mod object;
mod object_file;
mod offsets;
mod symbols;
mod word;

pub use executable::{Executable, Kind, Part, Symbol};
pub use file::elf_bytes;
pub use object::Object;
pub use object_file::{is_linkable, object_bytes};
pub use offsets::is_short;
pub use word::push_words;
