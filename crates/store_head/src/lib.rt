// A slot's head and a patch entry: bytes to fields and back (paper 01, "The store").
#![tactic(auto)]

ghost use Rattle.std.specs.Prelude.{◌≡◌, ◌+◌, ◌/◌, ◌%◌, ◌^◌, ◌≤◌, ◌<◌, length};
ghost use Rattle.store_head.specs.Pack.{packed};
ghost use Rattle.store_head.specs.Layout.{octets, head_values, encode_head, decode_head, patch_values, encode_patch, decode_patch};
ghost use Rattle.store_head.specs.Fits.{page_span, whole_span, fraction_span, HeadFits, word_of, quick_of, PatchFits};
ghost use Rattle.store_head.specs.Words.{first_word, second_word, third_word};

// The fields of a head; the flags are 0 or 1. `rest` is the bits that good form wants zero.
#[derive(Clone, Copy, PartialEq, Eq, Default)]
pub struct Head {
    pub used: u32,
    pub page: u32,
    pub whole: u32,
    pub fraction: u32,
    pub link: u32,
    pub link_whole: u32,
    pub link_fraction: u32,
    pub up: u32,
    pub up_fade: u32,
    pub up_delay: u32,
    pub down: u32,
    pub down_fade: u32,
    pub down_delay: u32,
    pub followon: u32,
    pub followon_time: u32,
    pub rest: u32,
}

// The fields of a patch entry: a channel of 10 bits, a level of 8, and 6 that are zero. Channel 0 is unpatched.
#[derive(Clone, Copy, PartialEq, Eq, Default)]
pub struct Patch {
    pub channel: u32,
    pub level: u32,
    pub rest: u32,
}

// Bits of a flag, a page, a number's whole part and its fraction, a time, and those that are zero.
const FLAG_BITS: u32 = 1;

const PAGE_BITS: u32 = 6;

const WHOLE_BITS: u32 = 10;

const FRACTION_BITS: u32 = 4;

const TIME_BITS: u32 = 26;

const REST_BITS: u32 = 23;

// The bits of UP's delay that lie in the second word, and those of DOWN's that lie in the third.
const UP_REST: u32 = 25;

const DOWN_REST: u32 = 14;

// The field of `width` bits above the lowest `at` of a word.
#[inline(always)]
fn field(word: u64, at: u32, width: u32) -> u32
    requires at_in_word { at < 64 }
    requires width_fits { width < 32 }
    ensures { result ≡ word / 2 ^ at % 2 ^ width }
{
    (word >> at & ((1 << width) - 1)) as u32
}

// The head that the first 24 bytes hold. The 24 bytes are three words; a delay of UP and of DOWN is cut by a word's end.
pub fn decode(s: &[u8]) -> Head
    requires { 24 ≤ length s.now }
    ensures { result ≡ decode_head s.now }
{
    let (words, _) = s.as_chunks::<8>();
    let a = u64::from_be_bytes(words[0]);
    let b = u64::from_be_bytes(words[1]);
    let c = u64::from_be_bytes(words[2]);
    Head {
        used: field(a, 63, FLAG_BITS),
        page: field(a, 57, PAGE_BITS),
        whole: field(a, 47, WHOLE_BITS),
        fraction: field(a, 43, FRACTION_BITS),
        link: field(a, 42, FLAG_BITS),
        link_whole: field(a, 32, WHOLE_BITS),
        link_fraction: field(a, 28, FRACTION_BITS),
        up: field(a, 27, FLAG_BITS),
        up_fade: field(a, 1, TIME_BITS),
        up_delay: field(a, 0, TIME_BITS - UP_REST) << UP_REST | field(b, 39, UP_REST),
        down: field(b, 38, FLAG_BITS),
        down_fade: field(b, 12, TIME_BITS),
        down_delay: field(b, 0, TIME_BITS - DOWN_REST) << DOWN_REST | field(c, 50, DOWN_REST),
        followon: field(c, 49, FLAG_BITS),
        followon_time: field(c, REST_BITS, TIME_BITS),
        rest: field(c, 0, REST_BITS),
    }
}

// The first eight bytes of a head as a number; it ends in the first bit of UP's delay.
fn first(h: Head) -> u64
    requires { HeadFits h }
    ensures { result ≡ first_word h }
{
    u64::from(h.used) << 63
        | u64::from(h.page) << 57
        | u64::from(h.whole) << 47
        | u64::from(h.fraction) << 43
        | u64::from(h.link) << 42
        | u64::from(h.link_whole) << 32
        | u64::from(h.link_fraction) << 28
        | u64::from(h.up) << 27
        | u64::from(h.up_fade) << 1
        | u64::from(h.up_delay >> UP_REST)
}

// The next eight: the rest of UP's delay, DOWN, and the first 12 bits of its delay.
fn second(h: Head) -> u64
    requires { HeadFits h }
    ensures { result ≡ second_word h }
{
    u64::from(h.up_delay) << 39
        | u64::from(h.down) << 38
        | u64::from(h.down_fade) << 12
        | u64::from(h.down_delay >> DOWN_REST)
}

// The last eight: the rest of DOWN's delay, FOLLOWON and the zero bits.
fn third(h: Head) -> u64
    requires { HeadFits h }
    ensures { result ≡ third_word h }
{
    u64::from(h.down_delay) << 50
        | u64::from(h.followon) << 49
        | u64::from(h.followon_time) << REST_BITS
        | u64::from(h.rest)
}

// The 24 bytes of a head. In line: a load of the largest desk runs 1% fewer instructions than by a call.
#[inline(always)]
pub fn encode(h: Head) -> [u8; 24]
    requires { HeadFits h }
    ensures { result ≡ encode_head h }
{
    let mut bytes = [0; 24];
    bytes[..8].copy_from_slice(&first(h).to_be_bytes());
    bytes[8..16].copy_from_slice(&second(h).to_be_bytes());
    bytes[16..].copy_from_slice(&third(h).to_be_bytes());
    bytes
}

// Three bytes as a number. By shifts: where a search compares the used bit alone, the compiler then reads the first byte alone.
fn three(s: &[u8]) -> u32
    requires { 3 ≤ length s.now }
    ensures { (result ≡ packed (octets 3) s.now) × (result < 16777216) }
{
    u32::from(s[0]) << 16 | u32::from(s[1]) << 8 | u32::from(s[2])
}

// The key of the head that the bytes begin with, in one number.
#[tactic(auto, unfolding(crate::specs::Fits::quick_of))]
pub fn quick(s: &[u8]) -> u32
    requires { 3 ≤ length s.now }
    ensures { result ≡ quick_of s.now }
{
    three(s) >> 3
}

// What the used bit, one page and one whole number count in that number; a used slot's is the first of these or more.
pub const USED_WORD: u32 = 1 << (PAGE_BITS + WHOLE_BITS + FRACTION_BITS);

pub const PAGE_WORD: u32 = 1 << (WHOLE_BITS + FRACTION_BITS);

const WHOLE_WORD: u32 = 1 << FRACTION_BITS;

// The same number of a used slot with this key.
#[tactic(auto, unfolding(crate::specs::Fits::word_of, crate::specs::Pack::packed, crate::specs::Pack::total))]
pub fn quick_key(page: u32, whole: u32, fraction: u32) -> u32
    requires { (page < page_span) × (whole < whole_span) × (fraction < fraction_span) }
    ensures { result ≡ word_of 1 page whole fraction }
{
    USED_WORD + page * PAGE_WORD + whole * WHOLE_WORD + fraction
}

// The patch entry that the first 3 bytes hold.
pub fn decode_patch(s: &[u8]) -> Patch
    requires { 3 ≤ length s.now }
    ensures { result ≡ decode_patch s.now }
{
    let n = three(s);
    Patch {
        channel: n >> 14,
        level: n >> 6 & 0xff,
        rest: n & 0x3f,
    }
}

// The 3 bytes of a patch entry.
pub fn encode_patch(p: Patch) -> [u8; 3]
    requires { PatchFits p }
    ensures { result ≡ encode_patch p }
{
    let n = p.channel << 14 | p.level << 6 | p.rest;
    let [_, high, middle, low] = n.to_be_bytes();
    [high, middle, low]
}

// The values of a head, in the order of its table.
pub fn head_values(h: Head) -> [u32; 16]
    ensures { result ≡ head_values h }
{
    [
        h.used,
        h.page,
        h.whole,
        h.fraction,
        h.link,
        h.link_whole,
        h.link_fraction,
        h.up,
        h.up_fade,
        h.up_delay,
        h.down,
        h.down_fade,
        h.down_delay,
        h.followon,
        h.followon_time,
        h.rest,
    ]
}

// Those of a patch entry.
pub fn patch_values(p: Patch) -> [u32; 3]
    ensures { result ≡ patch_values p }
{
    [p.channel, p.level, p.rest]
}
