// The end of the mailboxes: their givers are gathered, and what their calls came to enters the account.
ghost use Rattle.std.specs.Prelude.{[], ◌≡◌, ◌<◌, ◌≤◌, length, map, slice_index_or, slice_set, true};
ghost use Rattle.atomic_table.specs.Seated.{TableId};
ghost use Rattle.std.specs.List.{AllByRecursion};
ghost use Rattle.rt_ids.specs.declared.limits.TheConstants.{DEVICES, IRQ_NUMBERS};
ghost use Rattle.rt_live.specs.Account.{HasRoom, counted_row, empty_row};
ghost use Rattle.rt_live.specs.Ready.{IsBeside, irqs_of, part_of};
ghost use Rattle.rt_values.specs.Sides.{TakerSide};
ghost use Rattle.rt_live_inputs.specs.declared.device.GivingDevice.{GivingDevice as Giving};
ghost use Rattle.rt_live_inputs.specs.Inside.Making.{HasRoomFor, HaveHistories, gathered_all, gathered_one, with_left};
ghost use Rattle.rt_live_inputs.specs.Inside.Making.{with_takers};

use crate::boxes::BoxKind;
use crate::device::GivingDevice;
use rt_devices::Device;
use rt_live::AccountRow;
use rt_live::gathering::add_counts;
use rt_values::{Giver, Left, Mailbox, Taker};
use rt_words::{Line, Words};

/// Gathers the lines of all devices that pend in the row, the last first, into rows that count nothing yet.
pub(crate) fn gather_devices(
    line: &mut Line,
    words: &Words,
    mut devices: Vec<Device>,
    rows: &mut [AccountRow],
)
    requires first { line.old.number ≡ 255 }
    requires core { line.old.words ≡ words.now }
    requires none { line.old.gathered ≡ [] }
    requires devices { AllByRecursion (IsBeside words.now) devices.items }
    requires few { length devices.items ≤ DEVICES }
    requires empty { rows.old ≡ map empty_row (irqs_of rows.old) }
    requires in_range { AllByRecursion (λ irq. irq < IRQ_NUMBERS) (irqs_of rows.old) }
    ensures line { line.new
        ≡ record line.old { gathered = map part_of devices.items; since = line.new.since } }
    ensures since { line.old.since ≤ length line.old.calls → line.new.since ≤ length line.old.calls }
    ensures rows { rows.new ≡ map (counted_row 0 (map part_of devices.items)) (irqs_of rows.old) }
{
    while let Some(device) = devices.pop() {
        let Device {
            line: own,
            number: _,
            script: _,
        } = device;
        let tally = line.gather(words, own);
        add_counts(rows, 0, &tally, 0, 0);
    }
}

/// Takes in the giver of a place.
fn gather_at(boxes: &[Mailbox], takers: &mut [Taker], k: usize, giver: Giver)
    requires taker { k < length takers.old }
    requires there { k < length boxes.now }
    requires mailbox { (t : TakerSide) (m : TableId) →
        (slice_index_or takers.old k t).mailbox ≡ slice_index_or boxes.now k m }
    requires giver { (m : TableId) → giver.mailbox ≡ slice_index_or boxes.now k m }
    ensures { (t : TakerSide) →
        takers.new ≡ slice_set takers.old k (gathered_one (slice_index_or takers.old k t) giver) }
{
    takers[k].gather(&boxes[k], giver);
}

/// Takes in the givers of devices that have ended, the last first.
pub(crate) fn gather_boxes(boxes: &[Mailbox], takers: &mut [Taker], mut givers: Vec<GivingDevice>)
    requires each { map (λ (t : TakerSide). t.mailbox) takers.old ≡ boxes.now }
    requires givers { map (λ (d : Giving). d.giver.mailbox) givers.items ≡ boxes.now }
    ensures { takers.new ≡ gathered_all takers.old givers.items }
{
    while let Some(device) = givers.pop() {
        let GivingDevice {
            giver,
            number: _,
            lines: _,
        } = device;
        gather_at(boxes, takers, givers.len(), giver);
    }
}

/// Adds to a row what the calls of a mailbox came to, where it is of the row's interrupt.
fn add_to_row(row: &mut AccountRow, kind: &BoxKind, left: &Left)
    requires { HasRoom row.old }
    ensures { row.new ≡ with_left kind.now left.now row.old }
{
    if row.irq == kind.irq {
        row.raised += u64::from(left.raised);
        row.merged += u64::from(left.merged);
        row.latched += u64::from(left.found);
    }
}

/// Adds to the rows what the calls of a mailbox came to.
fn add_box(rows: &mut [AccountRow], kind: &BoxKind, left: &Left)
    requires { AllByRecursion HasRoom rows.old }
    ensures { rows.new ≡ map (with_left kind.now left.now) rows.old }
{
    for row in rows.iter_mut() {
        add_to_row(row, kind, left);
    }
}

/// Ends the mailboxes, the last first, and adds what their calls came to.
pub(crate) fn close_boxes(
    rows: &mut [AccountRow],
    kinds: &[BoxKind],
    mut boxes: Vec<Mailbox>,
    mut takers: Vec<Taker>,
)
    requires kinds { length kinds.now ≡ length takers.items }
    requires each { map (λ (t : TakerSide). t.mailbox) takers.items ≡ boxes.items }
    requires gathered { AllByRecursion (λ (t : TakerSide). t.gathered ≡ true) takers.items }
    requires room { AllByRecursion (HasRoomFor (length kinds.now)) rows.old }
    ensures histories { HaveHistories takers.items }
    ensures rows { rows.new ≡ map (with_takers kinds.now takers.items) rows.old }
{
    while let Some(taker) = takers.pop() {
        let Some(mailbox) = boxes.pop() else {
            unreachable!()
        };
        let left = mailbox.close(taker);
        add_box(rows, &kinds[takers.len()], &left);
    }
}
