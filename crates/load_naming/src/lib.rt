// What a record's fields say before the store is asked: a primary's name, a page, and the change that UP, DOWN, FOLLOWON or LINK asks
// for (paper 01, "Keywords and conditions").
#![tactic(auto)]

ghost use Rattle.std.specs.Prelude.{◌≡◌, true, ℕ, ◌<◌, MatchResult};
ghost use Rattle.store.specs.declared.Edit.{Edit};
ghost use Rattle.store_desk.specs.Size.{InRange};
ghost use Rattle.store_desk.specs.Name.{supported};
ghost use Rattle.text_fields.specs.Words.{head_of};
ghost use Rattle.text_fields.specs.Places.{words_from, word_in};
ghost use Rattle.value.specs.Integer.{integer_of};
ghost use Rattle.value.specs.Number.{number_of, borne_of};
ghost use Rattle.value.specs.Time.{time_of};
ghost use Rattle.value.specs.Field.{version_of};
ghost use Rattle.load.specs.Condition.{full_of, unsupported_of};
ghost use Rattle.load.specs.Ask.{numbered_by, sub_by, numeral_of, page_at, named_of, delay_of, fade_of, times_of, augments as augments_of, table_pages, family_of};
ghost use Rattle.load.specs.Anew.{is_link, last_number, accepted_of, next_key, beyond_of, next_named};
ghost use Rattle.load.specs.Fits.{highest_page, NumbersFit};
ghost use Rattle.load_naming.specs.Line.{FieldIn, Line};

use load::{Basic, Family, Fault, Numbers, Secondary};
use store::Edit;
use store_desk::{Desk, Key, Kind};
use text_fields::{Field, Keyword};
use value::{Number, NumberError, Version};

// The conditions, each number once.
const FULL_CUES: u32 = 21;

const FULL_GROUPS: u32 = 22;

const BAD_NUMBER: u32 = 41;

const NUMBER_TOO_LARGE: u32 = 42;

const BAD_PAGE: u32 = 43;

const BAD_SUB: u32 = 44;

const NO_GROUPS: u32 = 51;

const NO_SUBS: u32 = 52;

const MALFORMED_SUB: u32 = 171;

const BAD_TIME: u32 = 241;

// ---- what a keyword begins

// What a keyword begins.
#[tactic(auto, unfolding(load::specs::Ask::family_of))]
pub fn family_of(k: Keyword) -> Family
    ensures { result ≡ family_of k }
{
    match k {
        Keyword::Ident => Family::Basic(Basic::Ident),
        Keyword::Clear => Family::Basic(Basic::Clear),
        Keyword::Patch => Family::Basic(Basic::Patch),
        Keyword::Enddata => Family::Basic(Basic::Enddata),
        Keyword::Local => Family::Basic(Basic::Local),
        Keyword::Unknown => Family::Basic(Basic::Unknown),
        Keyword::Manufacturer
        | Keyword::Console
        | Keyword::Set
        | Keyword::Text
        | Keyword::Part
        | Keyword::Comment => Family::Basic(Basic::Passed),
        Keyword::Cue => Family::Primary(Kind::Cue),
        Keyword::Group => Family::Primary(Kind::Group),
        Keyword::Sub => Family::Primary(Kind::Sub),
        Keyword::Chan => Family::Augments(Secondary::Chan),
        Keyword::Up => Family::Augments(Secondary::Up),
        Keyword::Down => Family::Augments(Secondary::Down),
        Keyword::Followon => Family::Augments(Secondary::Followon),
        Keyword::Link => Family::Augments(Secondary::Link),
    }
}

#[tactic(auto, unfolding(load::specs::Anew::is_link))]
pub fn is_link(e: Secondary) -> bool
    ensures { result ≡ is_link e }
{
    matches!(e, Secondary::Link)
}

// ---- numbers

// A cue's or a group's number, or that of a linked cue.
#[tactic(auto, unfolding(load::specs::Ask::numbered_by))]
fn cue_number(text: &[u8], f: Field) -> Result<Number, Fault>
    requires { FieldIn text.now f }
    ensures { result ≡ numbered_by (word_in text.now f) (number_of (word_in text.now f).chars) }
{
    value::read_number(text_fields::word(text, f)).map_err(|e| match e {
        NumberError::Malformed => load::blamed(f, BAD_NUMBER),
        NumberError::TooLarge => load::blamed(f, NUMBER_TOO_LARGE),
    })
}

// A submaster's number, 1 to the highest.
#[tactic(auto, unfolding(load::specs::Ask::sub_by))]
fn sub_number(desk: Desk, text: &[u8], f: Field) -> Result<Number, Fault>
    requires { FieldIn text.now f }
    ensures { result ≡ sub_by desk (word_in text.now f) (integer_of (word_in text.now f).chars) }
{
    let Some(n) = value::read_integer(text_fields::word(text, f)) else {
        return Err(load::blamed(f, MALFORMED_SUB));
    };
    if (1..=desk.subs).contains(&n) {
        Ok(Number {
            whole: n,
            fraction: 0,
        })
    } else {
        Err(load::blamed(f, BAD_SUB))
    }
}

#[tactic(auto, unfolding(load::specs::Ask::numeral_of))]
fn number_in(desk: Desk, kind: Kind, text: &[u8], f: Field) -> Result<Number, Fault>
    requires { FieldIn text.now f }
    ensures { result ≡ numeral_of desk kind (word_in text.now f) }
{
    match kind {
        Kind::Cue | Kind::Group => cue_number(text, f),
        Kind::Sub => sub_number(desk, text, f),
    }
}

// ---- pages and names

// The page of the next field, or another where there is none.
pub fn page_at(other: u32, limit: u32, text: &[u8], at: usize) -> Option<u32>
    requires { Line text.now at }
    ensures { result ≡ page_at other limit (words_from text.now at) }
{
    let f = text_fields::field_at(text, at);
    if text_fields::is_missing(f) {
        Some(other)
    } else {
        value::read_page(text_fields::word(text, f), limit)
    }
}

// A primary's number and page; a page that is wrong is blamed on the field behind the number.
pub fn name_at(desk: Desk, kind: Kind, text: &[u8], at: usize) -> Result<Key, Fault>
    requires { Line text.now at }
    ensures { result ≡ named_of desk kind (words_from text.now at) }
{
    let f = text_fields::field_at(text, at);
    let end = f.end;
    let number = number_in(desk, kind, text, f)?;
    let Some(page) = page_at(1, store_desk::pages(desk, kind), text, end) else {
        return Err(load::blamed_at(text, end, BAD_PAGE));
    };
    Ok(Key {
        page,
        whole: number.whole,
        fraction: number.fraction,
    })
}

// The last number of a page, in a load with translation.
#[tactic(auto, unfolding(load::specs::Anew::last_number))]
fn last_number(desk: Desk, kind: Kind) -> u32
    ensures { result ≡ last_number desk kind }
{
    match kind {
        Kind::Cue | Kind::Group => value::WHOLE_MAX,
        Kind::Sub => desk.subs,
    }
}

#[tactic(auto, unfolding(load::specs::Anew::accepted_of))]
fn accepted(numbers: Numbers, kind: Kind) -> u32
    ensures { result ≡ accepted_of numbers kind }
{
    match kind {
        Kind::Cue => numbers.cues,
        Kind::Group => numbers.groups,
        Kind::Sub => numbers.subs,
    }
}

// The key of the next memory of a kind, after `n` others.
#[tactic(auto, using(crate::proofs::Next::last_pos), unfolding(load::specs::Anew::next_key))]
pub fn next_key(desk: Desk, kind: Kind, n: u32) -> Key
    requires kind_value { supported desk kind ≡ true }
    requires n_bound { n < 4294967295 }
    ensures { result ≡ next_key desk kind n }
{
    let last = last_number(desk, kind);
    Key {
        page: n / last + 1,
        whole: n % last + 1,
        fraction: 0,
    }
}

// Beyond the last page: no room for a cue or a group, and a submaster that is too high, which is blamed on its number.
#[tactic(auto, unfolding(load::specs::Anew::beyond_of, load::specs::Condition::full_of))]
fn beyond(kind: Kind, text: &[u8], at: usize) -> Fault
    requires { Line text.now at }
    ensures { result ≡ beyond_of kind (head_of (words_from text.now at)) }
{
    match kind {
        Kind::Cue => load::blameless(FULL_CUES),
        Kind::Group => load::blameless(FULL_GROUPS),
        Kind::Sub => load::blamed_at(text, at, BAD_SUB),
    }
}

// A primary's number and page in a load with translation, whatever its fields say.
#[tactic(auto, using(crate::proofs::Next::accepted_small), unfolding(load::specs::Anew::next_named))]
pub fn next_name(
    desk: Desk,
    numbers: Numbers,
    kind: Kind,
    text: &[u8],
    at: usize,
) -> Result<Key, Fault>
    requires kind_value { supported desk kind ≡ true }
    requires numbers_fit { NumbersFit numbers }
    requires line { Line text.now at }
    ensures { result ≡ next_named desk numbers kind (words_from text.now at) }
{
    let key = next_key(desk, kind, accepted(numbers, kind));
    if key.page <= store_desk::pages(desk, kind) {
        Ok(key)
    } else {
        Err(beyond(kind, text, at))
    }
}

// No room for a new memory. A submaster has a slot of its own.
#[tactic(auto, unfolding(load::specs::Condition::full_of))]
pub fn full(kind: Kind) -> u32
    ensures { result ≡ full_of kind }
{
    match kind {
        Kind::Cue => FULL_CUES,
        Kind::Group => FULL_GROUPS,
        Kind::Sub => BAD_SUB,
    }
}

// A desk without memories of this kind. Every desk has cues.
#[tactic(auto, unfolding(load::specs::Condition::unsupported_of))]
pub fn unsupported(kind: Kind) -> u32
    ensures { result ≡ unsupported_of kind }
{
    match kind {
        Kind::Cue => 0,
        Kind::Group => NO_GROUPS,
        Kind::Sub => NO_SUBS,
    }
}

// ---- times and links

// The number that a CUE bears or a LINK asks for in a load with translation: the next field's.
pub fn borne_at(text: &[u8], at: usize) -> u32
    requires { Line text.now at }
    ensures { result ≡ borne_of (head_of (words_from text.now at)).chars }
{
    let f = text_fields::field_at(text, at);
    value::read_borne(text_fields::word(text, f))
}

fn time_in(text: &[u8], f: Field) -> Option<u32>
    requires { FieldIn text.now f }
    ensures { result ≡ time_of (word_in text.now f).chars }
{
    value::read_time(text_fields::word(text, f))
}

// The optional delay, 0 where there is none.
fn delay_at(text: &[u8], at: usize) -> Option<u32>
    requires { Line text.now at }
    ensures { result ≡ delay_of (words_from text.now at) }
{
    let f = text_fields::field_at(text, at);
    if text_fields::is_missing(f) {
        Some(0)
    } else {
        time_in(text, f)
    }
}

// What UP and DOWN have: fade, optional delay.
fn fade_at(text: &[u8], at: usize) -> Result<(u32, u32), Fault>
    requires { Line text.now at }
    ensures { MatchResult result (λ t. (f : ℕ → ℕ → Edit) → fade_of f (words_from text.now at) ≡ Ok (f t.0 t.1)) (λ e. (f : ℕ → ℕ → Edit) → fade_of f (words_from text.now at) ≡ Err e) }
{
    let f = text_fields::field_at(text, at);
    let end = f.end;
    let Some(fade) = time_in(text, f) else {
        return Err(load::blamed(f, BAD_TIME));
    };
    let Some(delay) = delay_at(text, end) else {
        return Err(load::blamed_at(text, end, BAD_TIME));
    };
    Ok((fade, delay))
}

fn followon_at(text: &[u8], at: usize) -> Result<Edit, Fault>
    requires { Line text.now at }
    ensures { result ≡ times_of Secondary.Followon (words_from text.now at) }
{
    let f = text_fields::field_at(text, at);
    let Some(time) = time_in(text, f) else {
        return Err(load::blamed(f, BAD_TIME));
    };
    Ok(Edit::Followon(time))
}

fn link_at(text: &[u8], at: usize) -> Result<Edit, Fault>
    requires { Line text.now at }
    ensures { result ≡ times_of Secondary.Link (words_from text.now at) }
{
    let n = cue_number(text, text_fields::field_at(text, at))?;
    Ok(Edit::Link(n.whole, n.fraction))
}

// The change that UP, DOWN, FOLLOWON or LINK asks for.
#[tactic(auto, unfolding(load::specs::Ask::times_of))]
pub fn change_at(e: Secondary, text: &[u8], at: usize) -> Result<Edit, Fault>
    requires { Line text.now at }
    ensures { result ≡ times_of e (words_from text.now at) }
{
    match e {
        Secondary::Chan => Err(load::blameless(0)),
        Secondary::Up => {
            let (fade, delay) = fade_at(text, at)?;
            Ok(Edit::Up(fade, delay))
        }
        Secondary::Down => {
            let (fade, delay) = fade_at(text, at)?;
            Ok(Edit::Down(fade, delay))
        }
        Secondary::Followon => followon_at(text, at),
        Secondary::Link => link_at(text, at),
    }
}

// ---- which secondaries augment which primaries (§6.3)

#[tactic(auto, unfolding(load::specs::Ask::augments))]
pub fn augments(kind: Kind, e: Secondary) -> bool
    ensures { result ≡ augments_of kind e }
{
    match e {
        Secondary::Chan => true,
        Secondary::Up | Secondary::Down => store_code::has_times(kind),
        Secondary::Followon | Secondary::Link => store_code::has_link(kind),
    }
}

// ---- the pages that CLEAR can name

// The pages of a kind's table; a kind that is not supported has none.
#[tactic(auto, unfolding(load::specs::Ask::table_pages))]
pub fn table_pages(desk: Desk, kind: Kind) -> u32
    requires { InRange desk }
    ensures { result ≡ table_pages desk kind }
{
    if store_desk::supports(desk, kind) {
        store_desk::pages(desk, kind)
    } else {
        0
    }
}

// The pages of the table that has the most.
#[tactic(auto, unfolding(load::specs::Fits::highest_page))]
pub fn most_pages(desk: Desk) -> u32
    requires { InRange desk }
    ensures { result ≡ highest_page desk }
{
    let numbered = table_pages(desk, Kind::Cue).max(table_pages(desk, Kind::Group));
    let others = table_pages(desk, Kind::Sub).max(desk.patch_pages);
    numbered.max(others)
}

// ---- IDENT

// The version that IDENT names.
pub fn version_at(text: &[u8], at: usize) -> Option<Version>
    requires { Line text.now at }
    ensures { result ≡ version_of (head_of (words_from text.now at)).chars }
{
    let f = text_fields::field_at(text, at);
    value::read_version(text_fields::word(text, f))
}
