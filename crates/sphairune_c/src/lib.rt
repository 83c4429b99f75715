// The archive for programs in other languages: an export for each call of `sphairune`, which it calls, under the same name and with the same
// promise. What the words mean is told there.
#![tactic(auto)]

ghost use Rattle.std.specs.Prelude.{◌≡◌};
ghost use Rattle.value_level.specs.Level.{byte_percent};
ghost use Rattle.value_written.specs.Text.{time_text};
ghost use Rattle.show_words.specs.Words.{severity_of, condition_text};
ghost use Rattle.sphairune.specs.Calls.{NeededExport, EmptyExport, LoadExport, TranslateExport, WriteExport, FindExport, MemoriesExport, HeadExport, LevelsExport, PatchExport, TextExport};

#[unsafe(no_mangle)]
pub extern "C" fn sphairune_needed(limits: &[u32], length: &mut [usize]) -> u32
    ensures { NeededExport limits.now length.old result length.new }
{
    sphairune::sphairune_needed(limits, length)
}

#[unsafe(no_mangle)]
pub extern "C" fn sphairune_empty(limits: &[u32], store: &mut [u8]) -> u32
    ensures { EmptyExport limits.now store.old result store.new }
{
    sphairune::sphairune_empty(limits, store)
}

#[unsafe(no_mangle)]
pub extern "C" fn sphairune_load(
    limits: &[u32],
    store: &mut [u8],
    stream: &[u8],
    reports: &mut [u64],
    totals: &mut [u32],
) -> u32
    ensures { LoadExport limits.now store.old stream.now reports.old totals.old
        result store.new reports.new totals.new }
{
    sphairune::sphairune_load(limits, store, stream, reports, totals)
}

#[unsafe(no_mangle)]
pub extern "C" fn sphairune_translate(
    limits: &[u32],
    store: &mut [u8],
    stream: &[u8],
    reports: &mut [u64],
    totals: &mut [u32],
) -> u32
    ensures { TranslateExport limits.now store.old stream.now reports.old totals.old
        result store.new reports.new totals.new }
{
    sphairune::sphairune_translate(limits, store, stream, reports, totals)
}

#[unsafe(no_mangle)]
pub extern "C" fn sphairune_write(
    limits: &[u32],
    store: &[u8],
    out: &mut [u8],
    length: &mut [usize],
) -> u32
    ensures { WriteExport limits.now store.now out.old length.old
        result out.new length.new }
{
    sphairune::sphairune_write(limits, store, out, length)
}

#[unsafe(no_mangle)]
pub extern "C" fn sphairune_find(
    limits: &[u32],
    store: &[u8],
    page: u32,
    whole: u32,
    tenths: u32,
    place: &mut [usize],
) -> u32
    ensures { FindExport limits.now store.now page whole tenths place.old result place.new }
{
    sphairune::sphairune_find(limits, store, page, whole, tenths, place)
}

#[unsafe(no_mangle)]
pub extern "C" fn sphairune_memories(
    limits: &[u32],
    store: &[u8],
    kind: u32,
    slots: &mut [u32],
    count: &mut [usize],
) -> u32
    ensures { MemoriesExport limits.now store.now kind slots.old count.old
        result slots.new count.new }
{
    sphairune::sphairune_memories(limits, store, kind, slots, count)
}

#[unsafe(no_mangle)]
pub extern "C" fn sphairune_head(limits: &[u32], store: &[u8], slot: u32, values: &mut [u32]) -> u32
    ensures { HeadExport limits.now store.now slot values.old result values.new }
{
    sphairune::sphairune_head(limits, store, slot, values)
}

#[unsafe(no_mangle)]
pub extern "C" fn sphairune_levels(
    limits: &[u32],
    store: &[u8],
    slot: u32,
    place: &mut [usize],
) -> u32
    ensures { LevelsExport limits.now store.now slot place.old result place.new }
{
    sphairune::sphairune_levels(limits, store, slot, place)
}

#[unsafe(no_mangle)]
pub extern "C" fn sphairune_patch(
    limits: &[u32],
    store: &[u8],
    page: u32,
    dimmer: u32,
    values: &mut [u32],
) -> u32
    ensures { PatchExport limits.now store.now page dimmer values.old result values.new }
{
    sphairune::sphairune_patch(limits, store, page, dimmer, values)
}

#[unsafe(no_mangle)]
pub extern "C" fn sphairune_percent(level: u8) -> u32
    ensures { result ≡ byte_percent level }
{
    sphairune::sphairune_percent(level)
}

#[unsafe(no_mangle)]
pub extern "C" fn sphairune_severity(condition: u32) -> u8
    ensures { result ≡ severity_of condition }
{
    sphairune::sphairune_severity(condition)
}

#[unsafe(no_mangle)]
pub extern "C" fn sphairune_time_text(tenths: u32, out: &mut [u8], length: &mut [usize]) -> u32
    ensures { TextExport (time_text tenths) out.old length.old result out.new length.new }
{
    sphairune::sphairune_time_text(tenths, out, length)
}

#[unsafe(no_mangle)]
pub extern "C" fn sphairune_condition_text(
    condition: u32,
    out: &mut [u8],
    length: &mut [usize],
) -> u32
    ensures { TextExport (condition_text condition) out.old length.old result out.new length.new }
{
    sphairune::sphairune_condition_text(condition, out, length)
}
