//! Reads what `clap` matched.
ghost use Rattle.std.specs.Prelude.{◌≡◌, ◌&&◌, List, Some, None, true, option_map, if◌then◌else◌};
ghost use Rattle.std.specs.List.{list_all};
ghost use Rattle.std.specs.Str.Parse.{digits_value};
ghost use Rattle.clap.specs.Words.{first_value, found_of, one_text};
ghost use Rattle.command_line.specs.Limits as limits;
ghost use Rattle.command_line.specs.Line.{Text, Use, choices, has_sample, is_short as is_short_use};
ghost use Rattle.command_line.specs.Line.{is_value, is_within};
ghost use Rattle.command_line.specs.Reads.{MatchesHold, given_of, is_allowed as are_allowed};
ghost use Rattle.command_line.specs.Reads.{is_short_text, settings_with};

use crate::settings::MAX_ROOM;
use crate::{Settings, default_settings};
use clap::ArgMatches;
use page_draw::Sheet;

// The most dots to the inch.
const MAX_RESOLUTION: u32 = 4800;

// The greatest width, height and margin of a page, in dots.
const MAX_PAGE_SIDE: u32 = 20000;

// The most workers of a run.
const MAX_WORKERS: u32 = 32;

// The most fonts that a cache may keep.
const MAX_CACHED_FONTS: u32 = 256;

// The most digits of a number, but for the room.
const MAX_DIGITS: usize = 7;

// The numbers and switches of a line.
#[derive(Clone, Copy, Debug)]
struct LineValues {
    pub res: Option<u32>,
    pub width: Option<u32>,
    pub height: Option<u32>,
    pub left: Option<u32>,
    pub top: Option<u32>,
    pub workers: Option<u32>,
    pub cache: Option<u32>,
    pub room: Option<u64>,
    pub sample: Option<u32>,
    pub packed: bool,
    pub trace: bool,
    pub summary: bool,
    pub tolerant: bool,
}

// Whether a number, if one is given by this name, has no more digits than that of any option but
// `--room`.
fn is_short(matches: &ArgMatches<'_>, name: &str) -> bool
    ensures { result ≡ is_short_text (first_value (found_of matches.now) name.now) }
{
    match matches.get_str(name) {
        Some(text) => text.len() <= MAX_DIGITS,
        None => true,
    }
}

// Whether no number has too many digits. No argument has more than those of the room.
fn are_short(matches: &ArgMatches<'_>) -> bool
    ensures { (us : List Use) → MatchesHold us (found_of matches.now)
        → result ≡ list_all (is_short_use us) choices }
{
    is_short(matches, "res")
        & is_short(matches, "width")
        & is_short(matches, "height")
        & is_short(matches, "left")
        & is_short(matches, "top")
        & is_short(matches, "workers")
        & is_short(matches, "cache")
        & is_short(matches, "sample")
}

fn number(matches: &ArgMatches<'_>, name: &str) -> Option<u32>
    requires value { (v : Text) → first_value (found_of matches.now) name.now ≡ Some v
        → is_value v ≡ true }
    requires short { is_short_text (first_value (found_of matches.now) name.now) ≡ true }
    ensures { result ≡ option_map (digits_value 10) (first_value (found_of matches.now) name.now) }
{
    match matches.get_str(name) {
        Some(text) => text.parse().ok(),
        None => None,
    }
}

fn long_number(matches: &ArgMatches<'_>, name: &str) -> Option<u64>
    requires { (v : Text) → first_value (found_of matches.now) name.now ≡ Some v
        → is_value v ≡ true }
    ensures { result ≡ option_map (digits_value 10) (first_value (found_of matches.now) name.now) }
{
    match matches.get_str(name) {
        Some(text) => text.parse().ok(),
        None => None,
    }
}

// What the matches give at each name.
fn given_in(matches: &ArgMatches<'_>) -> LineValues
    requires { (us : List Use) × MatchesHold us (found_of matches.now)
        × (list_all (is_short_use us) choices ≡ true) }
    ensures { (us : List Use) → MatchesHold us (found_of matches.now) → result ≡ given_of us }
{
    LineValues {
        res: number(matches, "res"),
        width: number(matches, "width"),
        height: number(matches, "height"),
        left: number(matches, "left"),
        top: number(matches, "top"),
        workers: number(matches, "workers"),
        cache: number(matches, "cache"),
        room: long_number(matches, "room"),
        sample: number(matches, "sample"),
        packed: matches.get_flag("packed"),
        trace: matches.get_flag("trace"),
        summary: matches.get_flag("summary"),
        tolerant: matches.get_flag("tolerant"),
    }
}

fn within(number: Option<u32>, least: u32, most: u32) -> bool
    ensures { result ≡ is_within least most number }
{
    match number {
        Some(number) => least <= number && number <= most,
        None => true,
    }
}

// Whether the room, if it is given, is no more than the greatest.
fn within_room(room: Option<u64>) -> bool
    ensures { result ≡ is_within 0 limits.MAX_ROOM room }
{
    match room {
        Some(room) => room <= MAX_ROOM,
        None => true,
    }
}

// Whether packed fonts, where they are asked for, are those of a sample.
fn may_pack(packed: bool, sample: Option<u32>) -> bool
    ensures { result ≡ has_sample packed sample }
{
    !packed || sample.is_some()
}

// Whether each number lies in its range, there are as many workers as are asked for, and packed
// fonts are asked for with a sample alone.
fn is_allowed(given: &LineValues, workers: usize) -> bool
    ensures { result ≡ are_allowed workers given.now }
{
    within(given.res, 1, MAX_RESOLUTION)
        & within(given.width, 1, MAX_PAGE_SIDE)
        & within(given.height, 1, MAX_PAGE_SIDE)
        & within(given.left, 0, MAX_PAGE_SIDE)
        & within(given.top, 0, MAX_PAGE_SIDE)
        & within(given.workers, 1, MAX_WORKERS)
        & within(given.cache, 1, MAX_CACHED_FONTS)
        & within_room(given.room)
        & within(given.sample, 1, 1000)
        & (given.workers.unwrap_or(1) as usize <= workers)
        & may_pack(given.packed, given.sample)
}

// The settings of a line, where each number lies in its range, there are n workers, and packed
// fonts are asked for with a sample alone.
#[tactic(auto, unfolding(crate::specs::Settings::default_settings))]
fn settings(given: &LineValues, workers: usize) -> Option<Settings>
    ensures { result ≡ (if are_allowed workers given.now then Some (settings_with given.now)
        else None) }
{
    if !is_allowed(given, workers) {
        return None;
    }
    let defaults = default_settings();
    let res = given.res.unwrap_or(defaults.res);
    Some(Settings {
        res,
        sheet: Sheet {
            width: given.width.unwrap_or((17 * res / 2).min(MAX_PAGE_SIDE)),
            height: given.height.unwrap_or((11 * res).min(MAX_PAGE_SIDE)),
            left: given.left.unwrap_or(res),
            top: given.top.unwrap_or(res),
            tolerant: given.tolerant,
        },
        workers: given.workers.unwrap_or(defaults.workers),
        cache: given.cache.unwrap_or(defaults.cache),
        room: given.room.unwrap_or(defaults.room),
        sample: given.sample,
        packed: given.packed,
        trace: given.trace,
        summary: given.summary,
    })
}

/// The settings of a line, where each number has no more digits than it may have and lies in its
/// range, there are n workers, and packed fonts are asked for with a sample alone.
pub fn settings_in(matches: &ArgMatches<'_>, workers: usize) -> Option<Settings>
    requires { (us : List Use) × MatchesHold us (found_of matches.now) }
    ensures { (us : List Use) → MatchesHold us (found_of matches.now)
        → result ≡ (if list_all (is_short_use us) choices && are_allowed workers (given_of us)
        then Some (settings_with (given_of us)) else None) }
{
    if !are_short(matches) {
        return None;
    }
    settings(&given_in(matches), workers)
}
