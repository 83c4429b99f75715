// The size of a desk (paper 01, "The size of a desk"), the names of its memories, and why a call is turned away.
#![tactic(auto)]

ghost use Rattle.std.specs.Prelude.{◌≡◌, ◌≤◌};
ghost use Rattle.std.specs.Result.{result_ok};
ghost use Rattle.store_desk.specs.Size.{Within, InRange, in_range_of, house, level_width, levels_length, slot_length, sub_slots, slots_of, patch_start, entries_of, store_length};
ghost use Rattle.store_desk.specs.Refusal.{refusal_number, refusal_place, most_places, refusal_word, NeededPromise};
ghost use Rattle.store_desk.specs.Name.{kind_by, first_slot, slot_count, pages_of, supported, ok_number, ok_sub, ok_within, ok_page, ok_name, has_slot, has_dimmer, sub_slot, entry_of};

// The nine limits, in the order of the paper's table.
#[derive(Clone, Copy, PartialEq, Eq)]
pub struct Desk {
    pub channels: u32,
    pub dimmers: u32,
    pub cues: u32,
    pub groups: u32,
    pub subs: u32,
    pub cue_pages: u32,
    pub group_pages: u32,
    pub sub_pages: u32,
    pub patch_pages: u32,
}

// The kinds of memory that a primary opens.
#[derive(Clone, Copy, PartialEq, Eq)]
pub enum Kind {
    Cue,
    Group,
    Sub,
}

// A number that names no kind.
#[derive(Clone, Copy, Debug, PartialEq, Eq)]
pub struct NoSuchKind;

impl TryFrom<u32> for Kind {
    type Error = NoSuchKind;

    ghost try_from_gives = { λ number kind. result_ok kind ≡ kind_by number };

    fn try_from(number: u32) -> Result<Self, NoSuchKind> {
        match number {
            0 => Ok(Kind::Cue),
            1 => Ok(Kind::Group),
            2 => Ok(Kind::Sub),
            _ => Err(NoSuchKind),
        }
    }
}

// What names a memory among those of its kind. A submaster's fraction is 0.
#[derive(Clone, Copy, PartialEq, Eq)]
pub struct Key {
    pub page: u32,
    pub whole: u32,
    pub fraction: u32,
}

impl Desk {
    // Paper 01's named size.
    pub const HOUSE: Self = Self {
        channels: 96,
        dimmers: 192,
        cues: 200,
        groups: 40,
        subs: 24,
        cue_pages: 2,
        group_pages: 1,
        sub_pages: 2,
        patch_pages: 1,
    };

    pub fn house() -> Self
        ensures { result ≡ house }
    {
        Self::HOUSE
    }

    // R2 is its failure.
    pub fn in_range(self) -> bool
        ensures { result ≡ in_range_of self }
    {
        [
            (1..=MOST_CHANNELS, self.channels),
            (1..=MOST_DIMMERS, self.dimmers),
            (1..=MOST_CUES, self.cues),
            (0..=MOST_GROUPS, self.groups),
            (0..=MOST_SUBS, self.subs),
            (1..=MOST_PAGES, self.cue_pages),
            (1..=MOST_PAGES, self.group_pages),
            (1..=MOST_SUB_PAGES, self.sub_pages),
            (1..=MOST_PATCH_PAGES, self.patch_pages),
        ]
        .iter()
        .all(|(range, limit)| range.contains(limit))
    }

    // Bytes of one channel's level.
    #[tactic(auto, unfolding(crate::specs::Size::level_width))]
    pub fn level_width(self) -> usize
        ensures { result ≡ level_width self }
    {
        1
    }

    // Bytes of a slot's levels.
    #[tactic(auto, using(crate::proofs::Size::levels_le), unfolding(crate::specs::Size::levels_length))]
    pub fn levels_length(self) -> usize
        requires { InRange self }
        ensures { result ≡ levels_length self }
    {
        self.channels as usize * self.level_width()
    }

    #[tactic(auto, using(crate::proofs::Size::levels_le), unfolding(crate::specs::Size::slot_length))]
    pub fn slot_length(self) -> usize
        requires { InRange self }
        ensures { result ≡ slot_length self }
    {
        HEAD_LENGTH + self.levels_length()
    }

    #[tactic(auto, unfolding(crate::specs::Size::sub_slots))]
    fn sub_slots(self) -> usize
        requires { InRange self }
        ensures { result ≡ sub_slots self }
    {
        self.subs as usize * self.sub_pages as usize
    }

    // The slots of all kinds.
    #[tactic(auto, using(crate::proofs::Size::subs_le), unfolding(crate::specs::Size::slots_of))]
    pub fn slots(self) -> usize
        requires { InRange self }
        ensures { result ≡ slots_of self }
    {
        self.cues as usize + self.groups as usize + self.sub_slots()
    }

    // Where the patch entries begin.
    #[tactic(auto, using(crate::proofs::Size::patch_le), unfolding(crate::specs::Size::patch_start))]
    pub fn patch_start(self) -> usize
        requires { InRange self }
        ensures { result ≡ patch_start self }
    {
        self.slots() * self.slot_length()
    }

    // How many patch entries there are.
    #[tactic(auto, unfolding(crate::specs::Size::entries_of))]
    pub fn entries(self) -> usize
        requires { InRange self }
        ensures { result ≡ entries_of self }
    {
        self.dimmers as usize * self.patch_pages as usize
    }

    // The bytes that a store of this desk needs.
    #[tactic(auto, using(crate::proofs::Size::entries_le, crate::proofs::Size::patch_le), unfolding(crate::specs::Size::store_length))]
    pub fn store_length(self) -> usize
        requires { InRange self }
        ensures { result ≡ store_length self }
    {
        self.patch_start() + self.entries() * ENTRY_LENGTH
    }

    // The public call: R2, or the length.
    pub fn needed(self) -> Result<usize, Refusal>
        ensures { NeededPromise self result }
    {
        if self.in_range() {
            Ok(self.store_length())
        } else {
            Err(Refusal::R2)
        }
    }
}

// The ends of the ranges, each once.
const MOST_CHANNELS: u32 = 512;

const MOST_DIMMERS: u32 = 512;

const MOST_CUES: u32 = 600;

const MOST_GROUPS: u32 = 200;

const MOST_SUBS: u32 = 96;

const MOST_PAGES: u32 = 63;

const MOST_SUB_PAGES: u32 = 8;

const MOST_PATCH_PAGES: u32 = 4;

// Bytes of a slot's head, and of a patch entry.
pub const HEAD_LENGTH: usize = 24;

pub const ENTRY_LENGTH: usize = 3;

// In an answer that is a word the place stands above the number's eight bits.
const PLACE_UNIT: u32 = 256;

// Why a call is turned away: paper 01's table "Calls turned away", with C-11's R4a, R4b, R4c in the place of R4, and C-13's R7. R4a to R4c have
// the place, from 1, of the slot or patch entry that is out of form, R6 the length needed. Every answer of a call holds it.
#[derive(Clone, Copy, Debug, PartialEq, Eq)]
pub enum Refusal {
    R1,
    R2,
    R3,
    R4a(usize),
    R4b(usize),
    R4c(usize),
    R5,
    R6(usize),
    R7,
}

impl Refusal {
    // The paper's number: R4a is 4A in hexadecimal.
    fn number(self) -> u32
        ensures { result ≡ refusal_number self }
    {
        match self {
            Refusal::R1 => 1,
            Refusal::R2 => 2,
            Refusal::R3 => 3,
            Refusal::R4a(_) => 0x4A,
            Refusal::R4b(_) => 0x4B,
            Refusal::R4c(_) => 0x4C,
            Refusal::R5 => 5,
            Refusal::R6(_) => 6,
            Refusal::R7 => 7,
        }
    }

    // The place that it tells, or 0.
    fn place(self) -> usize
        ensures { result ≡ refusal_place self }
    {
        match self {
            Refusal::R4a(place) | Refusal::R4b(place) | Refusal::R4c(place) => place,
            _ => 0,
        }
    }

    // Both in one, for answers that are a word.
    pub fn word(self) -> u32
        requires { refusal_place self ≤ most_places }
        ensures { result ≡ refusal_word self }
    {
        self.number() + PLACE_UNIT * self.place() as u32
    }
}

// Cue slots come first, then group slots, then submaster slots.
#[tactic(auto, unfolding(crate::specs::Name::first_slot))]
pub fn first_slot(desk: Desk, kind: Kind) -> usize
    requires { InRange desk }
    ensures { result ≡ first_slot desk kind }
{
    match kind {
        Kind::Cue => 0,
        Kind::Group => desk.cues as usize,
        Kind::Sub => desk.cues as usize + desk.groups as usize,
    }
}

#[tactic(auto, unfolding(crate::specs::Name::slot_count))]
pub fn slot_count(desk: Desk, kind: Kind) -> usize
    requires { InRange desk }
    ensures { result ≡ slot_count desk kind }
{
    match kind {
        Kind::Cue => desk.cues as usize,
        Kind::Group => desk.groups as usize,
        Kind::Sub => desk.sub_slots(),
    }
}

#[tactic(auto, unfolding(crate::specs::Name::pages_of))]
pub fn pages(desk: Desk, kind: Kind) -> u32
    ensures { result ≡ pages_of desk kind }
{
    match kind {
        Kind::Cue => desk.cue_pages,
        Kind::Group => desk.group_pages,
        Kind::Sub => desk.sub_pages,
    }
}

// A kind with no slots is not supported.
#[tactic(auto, unfolding(crate::specs::Name::supported))]
pub fn supports(desk: Desk, kind: Kind) -> bool
    requires { InRange desk }
    ensures { result ≡ supported desk kind }
{
    0 < slot_count(desk, kind)
}

// A cue, group or link number: 0.1 to 999.9, one fraction digit.
#[tactic(auto, using(std::proofs::lemmas::Bool::Decides::nat_tests), unfolding(crate::specs::Name::ok_number, crate::specs::Size::all_of))]
pub fn ok_number(whole: u32, fraction: u32) -> bool
    ensures { result ≡ ok_number whole fraction }
{
    whole <= value::WHOLE_MAX && fraction <= value::FRACTION_MAX && 0 < whole + fraction
}

#[tactic(auto, using(std::proofs::lemmas::Bool::Decides::nat_tests), unfolding(crate::specs::Name::ok_sub, crate::specs::Size::all_of))]
fn ok_sub(desk: Desk, whole: u32, fraction: u32) -> bool
    ensures { result ≡ ok_sub desk whole fraction }
{
    (1..=desk.subs).contains(&whole) && fraction == 0
}

// The number of a memory of this kind is in range.
#[tactic(auto, unfolding(crate::specs::Name::ok_within))]
pub fn ok_within(desk: Desk, kind: Kind, key: Key) -> bool
    ensures { result ≡ ok_within desk kind key }
{
    match kind {
        Kind::Cue | Kind::Group => ok_number(key.whole, key.fraction),
        Kind::Sub => ok_sub(desk, key.whole, key.fraction),
    }
}

#[tactic(auto, using(std::proofs::lemmas::Bool::Decides::nat_tests), unfolding(crate::specs::Name::ok_page))]
pub fn ok_page(desk: Desk, kind: Kind, page: u32) -> bool
    ensures { result ≡ ok_page desk kind page }
{
    (1..=pages(desk, kind)).contains(&page)
}

// The desk can have a memory of this name.
#[tactic(auto, using(std::proofs::lemmas::Bool::Decides::nat_tests), unfolding(crate::specs::Name::ok_name, crate::specs::Size::all_of))]
pub fn ok_name(desk: Desk, kind: Kind, key: Key) -> bool
    requires { InRange desk }
    ensures { result ≡ ok_name desk (record { kind = kind; key = key }) }
{
    supports(desk, kind) && ok_within(desk, kind, key) && ok_page(desk, kind, key.page)
}

// The desk has a slot of this number, which counts from 1 through the whole store.
pub fn has_slot(desk: Desk, number: u32) -> bool
    requires { InRange desk }
    ensures { result ≡ has_slot desk number }
{
    (1..=desk.slots()).contains(&(number as usize))
}

// The desk has this dimmer on this patch page.
#[tactic(auto, using(std::proofs::lemmas::Bool::Decides::nat_tests), unfolding(crate::specs::Name::has_dimmer, crate::specs::Size::all_of))]
pub fn has_dimmer(desk: Desk, page: u32, dimmer: u32) -> bool
    ensures { result ≡ has_dimmer desk page dimmer }
{
    (1..=desk.patch_pages).contains(&page) && (1..=desk.dimmers).contains(&dimmer)
}

// A submaster's slot: page by page, by number.
pub fn sub_slot(desk: Desk, key: Key) -> usize
    requires in_range { InRange desk }
    requires within { Within 1 key.page desk.sub_pages × Within 1 key.whole desk.subs }
    ensures { result ≡ sub_slot desk key }
{
    let page = key.page as usize;
    let whole = key.whole as usize;
    let subs = desk.subs as usize;
    first_slot(desk, Kind::Sub) + ((page - 1) * subs + (whole - 1))
}

// A dimmer's patch entry: page by page, by dimmer.
#[tactic(auto, unfolding(crate::specs::Name::entry_of))]
pub fn entry_of(desk: Desk, page: u32, dimmer: u32) -> usize
    requires in_range { InRange desk }
    requires within { Within 1 page desk.patch_pages × Within 1 dimmer desk.dimmers }
    ensures { result ≡ entry_of desk page dimmer }
{
    let page = page as usize;
    let dimmer = dimmer as usize;
    let dimmers = desk.dimmers as usize;
    (page - 1) * dimmers + (dimmer - 1)
}
