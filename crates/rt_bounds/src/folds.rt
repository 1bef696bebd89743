// Loops that count as one step of many: how long each is, the inner ones first.

ghost use Rattle.std.specs.Prelude.{◌≡◌, ◌≢◌, ◌<◌, ◌+◌, None, Some, IfOk, OnOk, length, replicate};
ghost use Rattle.rt_points.specs.Checked.{IsChecked};
ghost use Rattle.rt_points.specs.Limits.{IsWithinLimits};
ghost use Rattle.rt_judge.specs.Inside.Walks.{reached_by, IsSoundWalk};
ghost use Rattle.rt_bounds.specs.Counting.{IsCounting};
ghost use Rattle.rt_bounds.specs.Inside.Aheads as spec;
ghost use Rattle.rt_bounds.specs.Inside.Ground.{IsMapped};
ghost use Rattle.rt_bounds.specs.Inside.Inners.{AreInners};
ghost use Rattle.rt_bounds.specs.Inside.Sources.{AreSources};
ghost use Rattle.rt_bounds.specs.Inside.Surveys as surveys;
ghost use Rattle.rt_bounds.specs.Inside.Writtens.{AreAllWritten};

use crate::counting::{CountingLoop, counting_at};
use crate::ground::depth_at;
use crate::longest::{Longest, MOST_STEPS};
use crate::shape::Inner;
use crate::sources::Sources;
use crate::survey::Survey;
use crate::written::Written;
use rt_code::Image;
use rt_ids::NoMemory;
use rt_judge::walk::Walk;
use rt_points::Owner;
use std::alloc::Global;

/// A loop that counts, as one step from its head to where it leads out.
#[derive(Clone, Copy, Debug, PartialEq, Eq)]
pub struct Fold {
    /// How many sections are open at its jump.
    pub depth: usize,
    /// Where it leads out.
    pub out: u32,
    /// An address of a loop that is come to from its head, if turns are not counted.
    pub again: u32,
    /// How many core steps it has at most, or a loop in it that has no bound.
    pub longest: Longest,
}

/// So many steps, or where they are too many a loop at this address.
fn told(steps: u64, address: u32) -> Longest
    ensures { result ≡ spec.told steps address }
{
    if steps <= u64::from(MOST_STEPS) {
        Longest::Steps(steps as u32)
    } else {
        Longest::Loop(address)
    }
}

/// How many steps a loop has that turns so often, from its head up to its jump and in each turn.
fn in_all(turns: u32, front: u32, round: u32, again: u32) -> Longest
    ensures { result ≡ spec.told (spec.in_all turns front round) again }
{
    let turning = u64::from(turns).saturating_mul(u64::from(round) + 1);
    told(turning.saturating_add(u64::from(front) + 1), again)
}

/// How many core steps a loop has, from the longest way from its head and from where a turn begins, both up to its jump.
fn length_of(turns: u32, front: Longest, round: Longest, again: u32) -> Longest
    ensures { result ≡ spec.length_of turns front round again }
{
    match front {
        Longest::Loop(address) => Longest::Loop(address),
        Longest::Steps(front) => match round {
            Longest::Loop(address) => {
                if turns == 0 {
                    in_all(0, front, 0, again)
                } else {
                    Longest::Loop(address)
                }
            }
            Longest::Steps(round) => {
                if turns == 0 {
                    in_all(0, front, 0, again)
                } else {
                    in_all(turns, front, round, again)
                }
            }
        },
    }
}

/// The address of a loop that is come to from the head of one with this jump.
fn again_of(jump: u32, front: Longest, round: Longest) -> u32
    ensures { result ≡ spec.again_of jump front round }
{
    match front {
        Longest::Loop(address) => address,
        Longest::Steps(_) => match round {
            Longest::Loop(address) => address,
            Longest::Steps(_) => jump,
        },
    }
}

/// The fold of a loop at whose jump so many sections are open, by the ways up to that.
fn fold_of(depth: usize, counting: &CountingLoop, front: Longest, round: Longest) -> Fold
    ensures { result ≡ spec.fold_of depth counting.now front round }
{
    let again = again_of(counting.place.jump, front, round);
    Fold {
        depth,
        out: counting.place.out,
        again,
        longest: length_of(counting.turns, front, round, again),
    }
}

/// How many sections are open at the jump of a loop.
fn depth_there(walk: &Walk, jump: u32) -> usize
    requires { IsSoundWalk walk.now }
    ensures { result ≡ spec.depth_there (reached_by walk.now) jump }
{
    match depth_at(walk, jump) {
        Some(depth) => depth,
        None => 0,
    }
}

/// The longest way from an address up to a jump where ways end.
fn up_to(
    survey: &mut Survey,
    image: &Image,
    walk: &Walk,
    folds: &[Option<Fold>],
    owner: Owner,
    start: u32,
    jump: u32,
) -> Result<Longest, NoMemory>
    requires checked { IsChecked image.now }
    requires limits { IsWithinLimits image.now }
    requires mapped { IsMapped image.now owner walk.now }
    requires surveyed { surveys.IsSurveyed image.now owner walk.now survey.old }
    requires goal { survey.old.goal ≡ Some jump }
    requires free { start ≢ jump → surveys.IsOpenTo image.now owner (reached_by walk.now) folds.now survey.old.depth
        (Some jump) start }
    ensures surveyed { OnOk result (surveys.IsSurveyed image.now owner walk.now survey.new) }
    ensures depth { OnOk result (survey.new.depth ≡ survey.old.depth) }
    ensures goal { OnOk result (survey.new.goal ≡ survey.old.goal) }
    ensures longest { IfOk result (spec.IsAhead image.now survey.old.depth (Some jump)
        (spec.point_at owner (reached_by walk.now) start)) }
{
    if start == jump {
        Ok(Longest::Steps(0))
    } else {
        survey.longest_from(image, walk, folds, owner, start)
    }
}

/// Measures a loop, of which all inner ones are folded.
fn measure(
    survey: &mut Survey,
    image: &Image,
    walk: &Walk,
    folds: &[Option<Fold>],
    owner: Owner,
    counting: &CountingLoop,
) -> Result<Fold, NoMemory>
    requires checked { IsChecked image.now }
    requires limits { IsWithinLimits image.now }
    requires mapped { IsMapped image.now owner walk.now }
    requires counts { IsCounting image.now owner counting.now }
    requires folded { spec.AreFolds image.now owner (reached_by walk.now) counting.now.place.last folds.now }
    requires blank { surveys.IsBlank image.now survey.old }
    ensures fold { IfOk result (spec.IsFold image.now owner (reached_by walk.now) counting.now) }
    ensures blank { OnOk result (surveys.IsBlank image.now survey.new) }
{
    let place = counting.place;
    let depth = depth_there(walk, place.jump);
    survey.begin(place.jump, depth);
    let round = up_to(survey, image, walk, folds, owner, place.stay, place.jump)?;
    let front = up_to(survey, image, walk, folds, owner, place.head, place.jump)?;
    survey.forget();
    Ok(fold_of(depth, counting, front, round))
}

/// One more fold, if the loop that the line at an address jumps back in counts.
fn take_loop(
    survey: &mut Survey,
    folds: &mut [Option<Fold>],
    inners: &mut [Option<Inner>],
    image: &Image,
    walk: &Walk,
    written: &[Written],
    owner: Owner,
    sources: &[Sources],
    last: u32,
) -> Result<(), NoMemory>
    requires written { AreAllWritten image.now written.now }
    requires checked { IsChecked image.now }
    requires limits { IsWithinLimits image.now }
    requires mapped { IsMapped image.now owner walk.now }
    requires sources { AreSources image.now owner sources.now }
    requires inners { AreInners image.now owner walk.now sources.now inners.old }
    requires room { length inners.old ≡ length image.now.code }
    requires last { last < length image.now.code }
    requires folded { spec.AreFolds image.now owner (reached_by walk.now) last folds.old }
    requires blank { surveys.IsBlank image.now survey.old }
    ensures folded { OnOk result (spec.AreFolds image.now owner (reached_by walk.now) (last + 1) folds.new) }
    ensures inners { OnOk result (AreInners image.now owner walk.now sources.now inners.new) }
    ensures room { length inners.new ≡ length image.now.code }
    ensures blank { OnOk result (surveys.IsBlank image.now survey.new) }
{
    match counting_at(image, walk, written, owner, sources, inners, last) {
        Some(counting) => {
            let fold = measure(survey, image, walk, folds, owner, &counting)?;
            folds[counting.place.head as usize] = Some(fold);
            inners[counting.place.first as usize] = Some(Inner {
                last: counting.place.last,
                jump: counting.place.jump,
            });
            Ok(())
        }
        None => Ok(()),
    }
}

/// No loops are folded.
fn no_folds(alloc: Global, length: usize) -> Result<Vec<Option<Fold>>, NoMemory>
    ensures { IfOk result (λ folds. folds.items ≡ replicate length None) }
{
    Ok(Vec::from_elem(alloc, None, length)?)
}

/// No loops are known.
fn no_inners(alloc: Global, length: usize) -> Result<Vec<Option<Inner>>, NoMemory>
    ensures { IfOk result (λ inners. inners.items ≡ replicate length None) }
{
    Ok(Vec::from_elem(alloc, None, length)?)
}

/// The folds of all loops of an owner's code that count, by their heads.
pub fn folds_of(
    alloc: Global,
    image: &Image,
    walk: &Walk,
    written: &[Written],
    owner: Owner,
    sources: &[Sources],
) -> Result<Vec<Option<Fold>>, NoMemory>
    requires written { AreAllWritten image.now written.now }
    requires checked { IsChecked image.now }
    requires limits { IsWithinLimits image.now }
    requires mapped { IsMapped image.now owner walk.now }
    requires sources { AreSources image.now owner sources.now }
    ensures { IfOk result (λ folds. spec.AreFolds image.now owner (reached_by walk.now) (length image.now.code)
        folds.items) }
{
    let length = image.code.len();
    let mut survey = Survey::new(alloc, length, 0)?;
    let mut folds = no_folds(alloc, length)?;
    let mut inners = no_inners(alloc, length)?;
    for last in 0..length as u32 {
        take_loop(
            &mut survey,
            &mut folds,
            &mut inners,
            image,
            walk,
            written,
            owner,
            sources,
            last,
        )?;
    }
    Ok(folds)
}
