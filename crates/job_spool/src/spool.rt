//! A run over several documents.
ghost use Rattle.std.specs.Prelude.{◌≡◌, ◌≤◌, ◌<◌, [], ℕ, Option, None, cond, length, map, slice_index_or, string_bytes, take, unwrap_or};
ghost use Rattle.outside.specs.Library.{FileTable};
ghost use Rattle.command_line.specs.Settings.{AreSettings};
ghost use Rattle.dvi_run.specs.Endings.{IsPrinted};
ghost use Rattle.dvi_run.specs.Outside.{change_of};
ghost use Rattle.dvi_run.specs.Report.{loads_of};
ghost use Rattle.dvi_run.specs.Together.{IsReadyWorker, RestIsKept};
ghost use Rattle.page_workers.specs.Limits.{MAX_WORKERS};
ghost use Rattle.page_draw.specs.Sheets.{IsDrawable};
ghost use Rattle.job_spool.specs.Jobs.{jobs_change, settings_for as settings_of_numbers, sheet_of as sheet_of_resolution};
ghost use Rattle.job_spool.specs.Laws.{AreNumbers};
ghost use Rattle.job_spool.specs.Limits.{MAX_JOBS};
ghost use Rattle.job_spool.specs.Notes.{IsAnswer, first_refusal as first_refusal_of, notes_text, statuses_of, usage_text};
ghost use Rattle.job_spool.specs.Promises.{ForNumbers, KeepsSpool, spool_drawing};
ghost use Rattle.job_spool.specs.Words.{pairs_of_words, spool_numbers as numbers_of_words};

use crate::drawing::draw_caches;
use crate::job::Job;
use crate::laws::given_pairs;
use crate::notes::{first_refusal, print, print_usage};
use crate::numbers::{SpoolNumbers, spool_numbers};
use crate::plan::Plan;
use crate::reading::{index_texts, read_inputs};
use crate::sharing::share_caches;
use command_line::Settings;
use dvi_run::laws::runs;
use dvi_run::loads_asked;
use outside::{FontSource, Input, Output};
use page_draw::Sheet;
use page_workers::Worker;
use std::alloc::Global;
use std::sync::Wait;
use std::thread::Threads;

// No side of a page is longer, in dots.
const MAX_PAGE_SIDE: u32 = 20_000;

// How many bytes the fonts in a cache may weigh together.
const ROOM: u64 = 2_147_483_648;

// The status of a run whose words aren't a line.
const USAGE: u8 = 1;

// The status of a run whose notes failed.
const NOTES_FAILED: u8 = 8;

// The sheet of all jobs: 8.5 by 11 inches, with margins of one inch.
fn sheet_of(res: u32) -> Sheet
    requires some { 1 ≤ res }
    requires fine { res ≤ 4800 }
    ensures value { result ≡ sheet_of_resolution res }
    ensures drawable { IsDrawable result }
{
    Sheet {
        width: (17 * res / 2).min(MAX_PAGE_SIDE),
        height: (11 * res).min(MAX_PAGE_SIDE),
        left: res,
        top: res,
        tolerant: false,
    }
}

// The settings of all jobs.
fn settings_for(numbers: &SpoolNumbers) -> Settings
    requires { AreNumbers numbers.now }
    ensures value { result ≡ settings_of_numbers numbers.now }
    ensures allowed { AreSettings result }
{
    Settings {
        res: numbers.res,
        sheet: sheet_of(numbers.res),
        workers: numbers.workers,
        cache: numbers.cache,
        room: ROOM,
        sample: None,
        packed: false,
        trace: false,
        summary: false,
    }
}

// Reads and draws all jobs, by as many workers as the settings say.
fn draw_jobs<R: Threads + Wait + Sync, F: FontSource + Send, O: Output, I: Input>(
    rt: &R,
    alloc: Global,
    settings: &Settings,
    workers: &mut [Worker<F>],
    jobs: &mut [Job<I, O>],
)
    ghost known: { Option FileTable }
    requires settings { AreSettings settings.now }
    requires plain { settings.now.sample ≡ None }
    requires many { length workers.old ≡ settings.now.workers }
    requires few_jobs { length jobs.old ≤ MAX_JOBS }
    requires ready { (k : ℕ) (d : _) → k < length workers.old
        → IsReadyWorker F.library known (slice_index_or workers.old k d) }
    requires empty { (k : ℕ) (d : _) → k < length jobs.old
        → (slice_index_or jobs.old k d).history.items ≡ [] }
    ensures { (d : _) → KeepsSpool settings.now known (spool_drawing settings.now known
        (record { library = F.library; faults = F.faults; loads = F.loads }) (length jobs.old)
        (jobs_change (record {
          left = I.left;
          taken = I.taken;
          ended = I.ended;
          reads = I.faults;
          written = O.written;
          writes = O.faults;
        }) jobs.old jobs.new d) workers.old workers.new) }
{
    // For the proof: bytes that have a fault are no document, and over known font files each page
    // has one value.
    runs();
    let Ok(texts) = read_inputs(alloc, jobs) else {
        return;
    };
    let Ok(documents) = index_texts(alloc, settings.res, &texts, jobs) else {
        return;
    };
    let Ok(caches) = share_caches(alloc, &documents) else {
        return;
    };
    let plan = Plan {
        settings,
        documents: &documents,
        caches: &caches,
    };
    draw_caches(rt, alloc, &plan, workers, jobs);
}

// The status of a run, by the first job that was refused, and whether the notes took all.
fn status_of(refused: Option<u8>, taken: bool) -> u8
    ensures { result ≡ unwrap_or refused (cond taken 0 8) }
{
    match refused {
        Some(status) => status,
        None if taken => 0,
        None => NOTES_FAILED,
    }
}

/// Draws several documents over shared caches, one after another.
///
/// `words` are `RES WORKERS CACHE IN OUT [IN OUT ..]`, as [`spool_pairs`](crate::spool_pairs) says;
/// there are as many jobs as pairs of names. Where they aren't such the answer is 1: nothing is
/// read and drawn, and the notes have the line `dvispool: usage`.
///
/// All inputs are read first, in the order of the jobs, and then the documents are drawn, each as
/// `dvi_run::run_with` draws it: at RES dots to the inch, on 8.5 by 11 inches with margins of one
/// inch, by the first WORKERS workers, with a cache of CACHE fonts. Jobs whose documents have equal
/// units share a cache, in their order; a job begins a new one where they would have more than
/// 1,000,000 pages together. A job that is refused ends alone, with the status that it would have
/// as a run, and the others go on.
///
/// Afterwards the first job of each cache has the cache's calls as its `history`, and every other
/// job none. The notes are `job K status S` for each job, and then `looks`, `hits` and `loads`: how
/// many keys were looked up, how many of their fonts were found, and how many files were asked for.
/// The answer is the first status that isn't 0. Where there is none it is 0, or 8 where the notes
/// failed.
///
/// A worker has neither a seat nor results when handed in, and has drawn and loaded nothing, and
/// each job's `history` is empty. What is said of a document is said of the bytes that reads of its
/// job's input gave, and they are those that it had left, where these are known. What is said of
/// fonts holds for the files `told`, where the source of each worker is known to have these.
pub fn spool_run<R: Threads + Wait + Sync, I: Input, F: FontSource + Send, O: Output, N: Output>(
    rt: &R,
    alloc: Global,
    words: &[String],
    jobs: &mut [Job<I, O>],
    workers: &mut [Worker<F>],
    notes: &mut N,
) -> u8
    ghost told: { Option FileTable }
    requires some { 1 ≤ length workers.old }
    requires few { length workers.old ≤ MAX_WORKERS }
    requires ready { (k : ℕ) (d : _) → k < length workers.old
        → IsReadyWorker F.library told (slice_index_or workers.old k d) }
    requires given { ForNumbers (numbers_of_words (map string_bytes words.now)) (λ numbers.
        (numbers.workers ≤ length workers.old)
        × (length jobs.old ≡ length (pairs_of_words (map string_bytes words.now)))) }
    requires empty { (k : ℕ) (d : _) → k < length jobs.old
        → (slice_index_or jobs.old k d).history.items ≡ [] }

    // 1: exactly where the words aren't a line. Nothing was read or drawn.
    ensures usage { result ≡ 1 → numbers_of_words (map string_bytes words.now) ≡ None }
    ensures refused { numbers_of_words (map string_bytes words.now) ≡ None
        → (result ≡ 1) × (jobs.new ≡ jobs.old) × (workers.new ≡ workers.old)
        × IsPrinted (N.written notes.old) (N.written notes.new) (N.faults notes.old)
        (N.faults notes.new) usage_text }

    // Else each job is as alone, and the caches that they share are as they should be.
    ensures promises { ForNumbers (numbers_of_words (map string_bytes words.now)) (λ numbers.
        (d : _) → KeepsSpool (settings_of_numbers numbers) told
        (spool_drawing (settings_of_numbers numbers) told
        (record { library = F.library; faults = F.faults; loads = F.loads }) (length jobs.old)
        (jobs_change (record {
          left = I.left;
          taken = I.taken;
          ended = I.ended;
          reads = I.faults;
          written = O.written;
          writes = O.faults;
        }) jobs.old jobs.new d) (take numbers.workers workers.old)
        (take numbers.workers workers.new))) }
    ensures rest { ForNumbers (numbers_of_words (map string_bytes words.now)) (λ numbers.
        RestIsKept numbers.workers workers.old workers.new) }

    // The answer, and what the notes took.
    ensures answers { ForNumbers (numbers_of_words (map string_bytes words.now)) (λ numbers.
        IsAnswer (first_refusal_of (statuses_of jobs.new))
        (change_of N.written N.faults notes.old notes.new)
        (notes_text jobs.new (loads_of numbers.workers workers.new)) result) }
{
    // For the proof: numbers that words give are within their limits.
    given_pairs();
    let Some(numbers) = spool_numbers(words) else {
        print_usage(alloc, notes);
        return USAGE;
    };
    let settings = settings_for(&numbers);
    let used = numbers.workers as usize;
    draw_jobs(rt, alloc, &settings, &mut workers[..used], jobs);
    let loads = loads_asked(&workers[..used]);
    let taken = print(alloc, notes, jobs, loads).is_ok();
    status_of(first_refusal(jobs), taken)
}
