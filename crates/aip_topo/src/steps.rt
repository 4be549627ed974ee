ghost use Rattle.std.specs.Prelude.{◌≡◌, ◌<◌, ◌≤◌, IfErr, IfOk};
ghost use Rattle.aip_topo.specs.Reading.{Tells, at_line};
ghost use Rattle.aip_topo.specs.Steps.{most_of, with_line, with_setting};

use crate::additions::{addition_of, is_twin};
use crate::faults::{TopoEnd, TopoFault};
use crate::indexed::IndexedDraft;
use crate::judging::{is_many, is_out_of_range, is_twice, is_unknown};
use crate::lines::{Line, Setting};
use crate::topology::{Settings, Topology};
use std::alloc::Global;

/// A topology as far as its text was read.
#[derive(Drop)]
pub struct Draft {
    /// The topology of the lines so far.
    pub topology: Topology,
    /// Which settings were set, in their order from `accept` on.
    pub given: [bool; 8],
}

impl Setting {
    ghost use Rattle.aip_topo.specs.Steps.{most_of, place_of};

    /// The place of the setting in their order, from 0.
    pub(crate) fn place(self) -> usize
        ensures place { result ≡ place_of self }
        ensures limit { result < 8 }
    {
        match self {
            Setting::Accept => 0,
            Setting::Cache => 1,
            Setting::Epoch => 2,
            Setting::Filter => 3,
            Setting::Log => 4,
            Setting::Threshold => 5,
            Setting::Wild => 6,
            Setting::Wildcache => 7,
        }
    }

    /// The greatest value of the setting.
    pub(crate) fn most(self) -> u64
        ensures { result ≡ most_of self }
    {
        match self {
            Setting::Accept | Setting::Epoch | Setting::Wild => 4_294_967_295,
            Setting::Cache | Setting::Log | Setting::Threshold | Setting::Wildcache => 4096,
            Setting::Filter => 256,
        }
    }
}

// The settings with this one at this value.
pub(crate) fn with_setting(settings: Settings, setting: Setting, value: u64) -> Settings
    requires { value ≤ most_of setting }
    ensures { result ≡ with_setting setting value settings }
{
    match setting {
        Setting::Accept => Settings {
            accept: value,
            ..settings
        },
        Setting::Cache => Settings {
            cache: value as u16,
            ..settings
        },
        Setting::Epoch => Settings {
            epoch: value,
            ..settings
        },
        Setting::Filter => Settings {
            filter: value as u16,
            ..settings
        },
        Setting::Log => Settings {
            log: value as u16,
            ..settings
        },
        Setting::Threshold => Settings {
            threshold: value as u16,
            ..settings
        },
        Setting::Wild => Settings {
            wild: value,
            ..settings
        },
        Setting::Wildcache => Settings {
            wildcache: value as u16,
            ..settings
        },
    }
}

// The draft with the line of this number, unless one of Many, Twice, Unknown, Range and Twin, in this
// order, applies to it.
pub(crate) fn take(
    alloc: Global,
    draft: IndexedDraft,
    number: u32,
    line: &Line,
) -> Result<IndexedDraft, TopoEnd>
    ensures ok { IfOk result (λ next. with_line draft line.now ≡ Ok next) }
    ensures err { IfErr result (λ end. Tells end (at_line number (with_line draft line.now))) }
{
    if is_many(draft.topology(), line) {
        return Err(refused(number, TopoFault::Many));
    }
    if is_twice(&draft, line) {
        return Err(refused(number, TopoFault::Twice));
    }
    if is_unknown(&draft, line) {
        return Err(refused(number, TopoFault::Unknown));
    }
    if is_out_of_range(line) {
        return Err(refused(number, TopoFault::Range));
    }
    let addition = addition_of(alloc, &draft, line)?;
    if is_twin(&draft, &addition) {
        return Err(refused(number, TopoFault::Twin));
    }
    let next = draft.with(addition)?;
    Ok(next)
}

pub(crate) fn refused(line: u32, fault: TopoFault) -> TopoEnd
    ensures { result ≡ TopoEnd.Line line fault }
{
    TopoEnd::Line { line, fault }
}
