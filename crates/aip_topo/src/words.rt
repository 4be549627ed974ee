//! The words of a topology's lines, each written once.

ghost use Rattle.std.specs.Prelude.{◌≡◌};
ghost use Rattle.aip_text.specs.Fields.{named};
ghost use Rattle.aip_topo.specs.Lines.{guard_word, height_word, kind_word, setting_word, trust_word, width_word};
ghost use Rattle.aip_topo.specs.LineReading.{all_heights, all_settings, all_widths, both};

use crate::lines::Setting;
use lms_core::{Height, Width};

const SETTINGS: [Setting; 8] = [
    Setting::Accept,
    Setting::Cache,
    Setting::Epoch,
    Setting::Filter,
    Setting::Log,
    Setting::Threshold,
    Setting::Wild,
    Setting::Wildcache,
];

const WIDTHS: [Width; 4] = [Width::W1, Width::W2, Width::W4, Width::W8];

const HEIGHTS: [Height; 2] = [Height::H5, Height::H10];

const BOTH: [bool; 2] = [true, false];

pub(crate) fn setting_word(setting: Setting) -> &'static [u8]
    ensures { result.now ≡ setting_word setting }
{
    match setting {
        Setting::Accept => b"accept",
        Setting::Cache => b"cache",
        Setting::Epoch => b"epoch",
        Setting::Filter => b"filter",
        Setting::Log => b"log",
        Setting::Threshold => b"threshold",
        Setting::Wild => b"wild",
        Setting::Wildcache => b"wildcache",
    }
}

pub(crate) fn width_word(width: Width) -> &'static [u8]
    ensures { result.now ≡ width_word width }
{
    match width {
        Width::W1 => b"W1",
        Width::W2 => b"W2",
        Width::W4 => b"W4",
        Width::W8 => b"W8",
    }
}

pub(crate) fn height_word(height: Height) -> &'static [u8]
    ensures { result.now ≡ height_word height }
{
    match height {
        Height::H5 => b"H5",
        Height::H10 => b"H10",
    }
}

// Whether a router checks sources.
pub(crate) fn kind_word(checking: bool) -> &'static [u8]
    ensures { result.now ≡ kind_word checking }
{
    if checking { b"checking" } else { b"open" }
}

// Whether a host has a guard.
pub(crate) fn guard_word(guarded: bool) -> &'static [u8]
    ensures { result.now ≡ guard_word guarded }
{
    if guarded { b"guarded" } else { b"plain" }
}

// Whether a router trusts what comes over a link.
pub(crate) fn trust_word(trusts: bool) -> &'static [u8]
    ensures { result.now ≡ trust_word trusts }
{
    if trusts { b"trusted" } else { b"checked" }
}

pub(crate) fn setting_named(word: &[u8]) -> Option<Setting>
    ensures { result ≡ named setting_word all_settings word.now }
{
    SETTINGS.iter().copied().find(|&s| setting_word(s) == word)
}

pub(crate) fn width_named(word: &[u8]) -> Option<Width>
    ensures { result ≡ named width_word all_widths word.now }
{
    WIDTHS.iter().copied().find(|&w| width_word(w) == word)
}

pub(crate) fn height_named(word: &[u8]) -> Option<Height>
    ensures { result ≡ named height_word all_heights word.now }
{
    HEIGHTS.iter().copied().find(|&h| height_word(h) == word)
}

pub(crate) fn kind_named(word: &[u8]) -> Option<bool>
    ensures { result ≡ named kind_word both word.now }
{
    BOTH.iter().copied().find(|&b| kind_word(b) == word)
}

pub(crate) fn guard_named(word: &[u8]) -> Option<bool>
    ensures { result ≡ named guard_word both word.now }
{
    BOTH.iter().copied().find(|&b| guard_word(b) == word)
}

pub(crate) fn trust_named(word: &[u8]) -> Option<bool>
    ensures { result ≡ named trust_word both word.now }
{
    BOTH.iter().copied().find(|&b| trust_word(b) == word)
}
