//! The top call.
ghost use Rattle.std.specs.Prelude.{◌≡◌, ◌≤◌, ◌⊎◌, ◌↔◌, map, false, true, IsTrue, None, Ok, Err, Result, IsErrOf};
ghost use Rattle.std.specs.Rc.{rc_str_bytes};
ghost use Rattle.sc_base.specs.Causes.{Rose, Stood};
ghost use Rattle.sc_base.specs.Output.{Wrote, WrotePrefix};
ghost use Rattle.sc_words.specs.Words.{request, InRange};
ghost use Rattle.sc_top.specs.Answers.{CarriedOut, Answers, MayBeLate, MayLeave, HasOneAnswer, HaveOutputs};
ghost use Rattle.sc_top.specs.Carried.{Carried, Short};
ghost use Rattle.sc_top.specs.Endings.{Output, status_at, is_done, is_early};
ghost use Rattle.sc_top.specs.Fault.{status_of, fault_line, Tells};
ghost use Rattle.sc_top.specs.Headline.{Headline};
ghost use Rattle.sc_top.specs.Reopened.{AllComeBack};
ghost use Rattle.sc_top.specs.Runs.{status_from, Closed, EndsAs};
ghost use Rattle.sc_top.specs.Stages.{Why};
ghost use Rattle.sc_top.specs.Verdicts.{VerdictsAreExact};
ghost use Rattle.sc_top.specs.Watching.{watchers};
ghost use Rattle.sc_top.specs.declared.fault.Fault.{Fault as AnyFault};
ghost use Rattle.sc_top.specs.declared.fault.Refusal.{Refusal};

use crate::coarse::carry_coarse;
use crate::count::carry_count;
use crate::drill::carry_drill;
use crate::expand::carry_expand;
use crate::fault::Fault;
use crate::flat::carry_flat;
use crate::hier::carry_hier;
use crate::lowered::carry_open;
use crate::reopened::carry_reopen;
use crate::schedule::carry_schedule;
use crate::shortened::carry_cancel;
use crate::status::{Ending, Status};
use crate::verdict::carry_check;
use crate::watch::Asked;
use sc_base::{Shelf, Sink, write_all};
use sc_probe::Probe;
use sc_words::{Request, WordsFault, read_words};
use std::alloc::Global;
use std::rc::RcStr;

/// Writes the line, and ends the sink. Takes no memory.
fn tell<E: Sink>(err: &mut E, line: &[u8])
    requires { E.is_ended err.old ≡ false }
    ensures later { E.faults err.old ≤ E.faults err.new }
    ensures told { Tells E.tells E.bytes E.is_ended E.faults err.old err.new line.now }
{
    if write_all(err, line).is_ok() {
        let _ = err.finish();
    }
}

/// Ends a run: a fault is told.
fn end<E: Sink>(served: Result<Ending, Fault>, err: &mut E) -> Status
    requires { E.is_ended err.old ≡ false }
    ensures status { result ≡ status_from served }
    ensures later { E.faults err.old ≤ E.faults err.new }
    ensures told { Closed E.tells E.bytes E.is_ended E.faults err.old err.new served }
{
    match served {
        Ok(ending) => ending.status(),
        Err(fault) => {
            tell(err, fault.line().as_bytes());
            fault.status()
        }
    }
}

/// Carries out a request. Each form of request has a function of its own, with this clause.
fn carry<F: Shelf, O: Sink>(
    alloc: Global,
    job: &Request,
    probes: Vec<Box<dyn Probe>>,
    shelf: &mut F,
    out: &mut O,
) -> Result<Ending, Fault>
    requires open { O.is_ended out.old ≡ false }
    requires range { InRange job.now }
    ensures { CarriedOut F.held F.tells_held F.faults O.tells O.bytes O.is_ended O.faults (watchers rule state probes.items) job.now shelf.old shelf.new out.old out.new result }
{
    match job {
        Request::Hier { file, choice } => carry_hier(alloc, file.as_bytes(), *choice, shelf, out),
        Request::Flat {
            file,
            choice,
            limit,
            kinds,
            burst,
            window,
            reach,
        } => {
            let asked = Asked {
                kinds: *kinds,
                burst: *burst,
                window: *window,
                reach: *reach,
            };
            carry_flat(
                alloc,
                file.as_bytes(),
                *choice,
                *limit,
                asked,
                probes,
                shelf,
                out,
            )
        }
        Request::Expand { file, limit } => carry_expand(alloc, file.as_bytes(), *limit, shelf, out),
        Request::Check { flat, schedule } => {
            carry_check(alloc, flat.as_bytes(), schedule.as_bytes(), shelf, out)
        }
        Request::Count {
            file,
            choice,
            times,
        } => carry_count(alloc, file.as_bytes(), *choice, *times, shelf, out),
        Request::Schedule {
            file,
            choice,
            k,
            d,
            lpfs,
            times,
        } => carry_schedule(
            alloc,
            file.as_bytes(),
            *choice,
            *k,
            *d,
            *lpfs,
            *times,
            shelf,
            out,
        ),
        Request::Drill { n } => carry_drill(alloc, *n, shelf, out),
        Request::ToOpen { file, choice } => {
            carry_open(alloc, file.as_bytes(), *choice, shelf, out)
        }
        Request::FromOpen { file } => carry_reopen(alloc, file.as_bytes(), shelf, out),
        Request::Cancel {
            file,
            choice,
            kinds,
            burst,
            window,
            reach,
        } => {
            let asked = Asked {
                kinds: *kinds,
                burst: *burst,
                window: *window,
                reach: *reach,
            };
            carry_cancel(alloc, file.as_bytes(), *choice, asked, probes, shelf, out)
        }
        Request::Coarse {
            file,
            choice,
            k,
            d,
            lpfs,
        } => carry_coarse(alloc, file.as_bytes(), *choice, *k, *d, *lpfs, shelf, out),
    }
}

/// Carries out the request of the words, if there is one.
fn serve<F: Shelf, O: Sink>(
    alloc: Global,
    words: &[RcStr],
    probes: Vec<Box<dyn Probe>>,
    shelf: &mut F,
    out: &mut O,
) -> Result<Ending, Fault>
    requires { O.is_ended out.old ≡ false }
    ensures usage { request (map rc_str_bytes words.now) ≡ None → IsErrOf result Fault.Usage ⊎ IsErrOf result Fault.Memory }
    ensures carried { let W = map rc_str_bytes words.now in let all = watchers rule state probes.items in
        Carried F.held F.tells_held F.faults O.tells O.bytes O.is_ended O.faults (request W ≡ None) (λ held. Answers held all W) (MayBeLate all W) (λ held. MayLeave held W) shelf.old shelf.new out.old out.new result }
{
    match read_words(alloc, words) {
        Ok(job) => carry(alloc, &job, probes, shelf, out),
        Err(WordsFault::Usage) => Err(Fault::Usage),
        Err(WordsFault::Memory) => Err(Fault::Memory),
    }
}

/// Carries out the words over a shelf of texts, an output and a sink of fault lines, and answers how that ended.
///
/// `hier FILE` writes the hierarchical text of the source under FILE, and `flat FILE` its flat text of at most 10,000,000
/// gates. `expand FILE` writes the flat text of the hierarchical text under FILE, of at most as many. `check FLAT SCHEDULE`
/// writes the verdict on the schedule text under SCHEDULE, for the gates of the flat text under FLAT: the answer is `Done`
/// where it is legal, and else `NotLegal`. Each ends `out`.
///
/// Where a request asks for the rules of probes, those of `probes` that keep such a rule are shown every gate, and behind
/// the flat text stands a line of each, in their order, which tells of the state that it was handed in with and of these
/// gates. All other probes are dropped unseen, and every probe is dropped before `run` answers.
///
/// The refusals, in this order. `Usage`: the words are anything else. `ReadFailed`: the shelf fails. `Limit`: a text
/// has too many bytes, a source more than 16,777,216 and another text more than 134,217,728; `check` reads both texts
/// whole before it looks at either. `Refused` or `Limit`: the first fault of the text. For a source that is one of its
/// tokens, else one of its grammar, else one of its names and kinds, else one of its run. For another text it is the first
/// line that is not in its place or passes a limit, and `check` looks at the schedule last. `Limit` in `flat` and `expand`:
/// gates, qubits or classical bits pass 2^128 - 1, else qubits or classical bits pass 4,294,967,295, else the gates pass
/// the limit of the words. After a refusal `out` is unchanged. `Memory` may come at any point before the first byte of
/// output; where probes are asked for it may also come behind the flat text, which then stands in `out`. After
/// `WriteFailed`, where the sink fails, `out` has a prefix of the text and is not ended. Where no whole output stands, one
/// line is written to `err`, which is ended.
pub fn run<F: Shelf, O: Sink, E: Sink>(
    alloc: Global,
    words: &[RcStr],
    shelf: &mut F,
    out: &mut O,
    err: &mut E,
    probes: Vec<Box<dyn Probe>>,
) -> Status
    requires out_open { O.is_ended out.old ≡ false }
    requires err_open { E.is_ended err.old ≡ false }

    // What stays, and counts that never fall.
    ensures held { F.held shelf.new ≡ F.held shelf.old }
    ensures tells_held { F.tells_held shelf.new ≡ F.tells_held shelf.old }
    ensures shelf_later { F.faults shelf.old ≤ F.faults shelf.new }
    ensures out_later { O.faults out.old ≤ O.faults out.new }
    ensures err_later { E.faults err.old ≤ E.faults err.new }

    // The output.
    ensures done { IsTrue (is_done result) → IsTrue (F.tells_held shelf.old) → (output : Output) × Answers (F.held shelf.old) (watchers rule state probes.items) (map rc_str_bytes words.now) (Ok output) ×
        (result ≡ status_at output.ends) × Wrote O.tells O.bytes out.old out.new output.text }
    ensures prefix { result ≡ Status.WriteFailed → IsTrue (F.tells_held shelf.old) → (output : Output) × Answers (F.held shelf.old) (watchers rule state probes.items) (map rc_str_bytes words.now) (Ok output) ×
        WrotePrefix O.tells O.bytes out.old out.new output.text }
    ensures ended { IsTrue (is_done result) ↔ (O.is_ended out.new ≡ true) }
    ensures unchanged { IsTrue (is_early result) → out.new ≡ out.old }
    ensures memory { result ≡ Status.Memory → Short O.tells O.bytes (IsTrue (F.tells_held shelf.old)) (MayBeLate (watchers rule state probes.items) (map rc_str_bytes words.now))
        (MayLeave (F.held shelf.old) (map rc_str_bytes words.now)) out.old out.new }

    // The fault line, and why it came.
    ensures err_unchanged { IsTrue (is_done result) → err.new ≡ err.old }
    ensures fault { is_done result ≡ false → (fault : AnyFault) × (result ≡ status_of fault) × Tells E.tells E.bytes E.is_ended E.faults err.old err.new (fault_line fault) ×
        Why (request (map rc_str_bytes words.now) ≡ None) (Rose (F.faults shelf.old) (F.faults shelf.new)) (Rose (O.faults out.old) (O.faults out.new)) (Unit {0})
        (λ refusal. IsTrue (F.tells_held shelf.old) → Answers (F.held shelf.old) (watchers rule state probes.items) (map rc_str_bytes words.now) (Err refusal)) fault }
    ensures usage { request (map rc_str_bytes words.now) ≡ None → (result ≡ Status.Usage) ⊎ (result ≡ Status.Memory) }

    // Where no call of shelf or sink fails, the answer comes, or memory is wanting.
    ensures exact { (answer : Result Output Refusal) → IsTrue (F.tells_held shelf.old) → Answers (F.held shelf.old) (watchers rule state probes.items) (map rc_str_bytes words.now) answer →
        Stood (F.faults shelf.old) (F.faults shelf.new) → Stood (O.faults out.old) (O.faults out.new) →
        (result ≡ Status.Memory) ⊎ EndsAs O.tells O.bytes E.tells E.bytes E.is_ended E.faults out.old out.new err.old err.new result answer }

    // Words have one answer at most, and an output where their texts are in order. So by `exact` that output comes then,
    // or memory is wanting.
    ensures one_answer { HasOneAnswer }
    ensures complete { HaveOutputs }

    // The texts of an accepted source agree, and their gates are its meaning; calls of classical functions xor. What `open` wrote
    // comes back. A verdict is `legal` exactly where the schedule is.
    ensures headline { Headline }
    ensures comes_back { AllComeBack }
    ensures verdicts { VerdictsAreExact }
{
    let served = serve(alloc, words, probes, shelf, out);
    end(served, err)
}
