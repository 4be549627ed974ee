// Which slot of a filter may take the next entry.
ghost use Rattle.std.specs.Prelude.{◌≡◌, ◌+◌, ◌<◌, ◌≤◌, false, take, drop, length, IfSome};
ghost use Rattle.std.specs.List.{list_any};
ghost use Rattle.shutoff_filter.specs.FilterFile.{slot_in};
ghost use Rattle.shutoff_filter.specs.Spare.{holds_entry, is_matched_by, is_outlasted_by, spare_in};

use crate::slots::Slot;

// Whether some lower slot is open, of the same key, and lasts as long.
fn is_matched(slot: &Slot, lower: &[Slot]) -> bool
    ensures { result ≡ list_any (is_matched_by slot.now) lower.now }
{
    lower.iter().any(|other| other.is_open && other.to == slot.to && slot.until <= other.until)
}

// Whether some higher slot is open, of the same key, and lasts longer.
fn is_outlasted(slot: &Slot, higher: &[Slot]) -> bool
    ensures { result ≡ list_any (is_outlasted_by slot.now) higher.now }
{
    higher.iter().any(|other| other.is_open && other.to == slot.to && slot.until < other.until)
}

// Whether a slot between lower and higher ones holds the entry of a key in force.
fn is_holding(lower: &[Slot], slot: &Slot, higher: &[Slot], now: u64) -> bool
    ensures { result ≡ holds_entry now lower.now slot.now higher.now }
{
    slot.is_open && now < slot.until && !is_matched(slot, lower) && !is_outlasted(slot, higher)
}

// Whether the slot of that number holds the entry of a key in force.
#[tactic(auto, using(crate::proofs::Spares::parted))]
fn holds_entry(slots: &[Slot], number: usize, now: u64) -> bool
    requires { number < length slots.now }
    ensures { result ≡ holds_entry now (take number slots.now) (slot_in slots.now number) (drop (number + 1) slots.now) }
{
    let (lower, rest) = slots.split_at(number);
    let (_, higher) = rest.split_at(1);
    is_holding(lower, &slots[number], higher, now)
}

/// The number of the lowest slot that holds no entry of a key in force. Where two slots hold one entry, the lower does.
pub fn spare_slot(slots: &[Slot], now: u64) -> Option<u16>
    requires { length slots.now ≤ 257 }
    ensures spare { result ≡ spare_in now slots.now }
    ensures free { IfSome result (λ number. (number < length slots.now)
        × (holds_entry now (take number slots.now) (slot_in slots.now number) (drop (number + 1) slots.now) ≡ false)) }
{
    'numbers: for number in 0..slots.len() {
        if !holds_entry(slots, number, now) {
            return Some(number as u16);
        }
    }
    None
}
