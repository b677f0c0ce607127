ghost use Rattle.std.specs.Prelude.{◌≡◌, map, IfOk, IfErr, MatchResult};
ghost use Rattle.rules.specs.Boot.{boot_rule};
ghost use Rattle.rules.specs.Console.{Setting};
ghost use Rattle.rules.specs.Isolation.{Isolated};
ghost use Rattle.rules.specs.Runs.{Run};
ghost use Rattle.rules.specs.Told.{told_opening};
ghost use Rattle.guard.specs.Model.{between as view_between, during as view_during, boot_answer, setting};
ghost use Rattle.replay.specs.Model.{Performed, Ran, Replayed, call_of, heard_of, stood, view};

use crate::call::{Call, Outcome, Reply};
use crate::stage::Stage;
use guard::console::Console;
use guard::tables::Tables;
use guard::turn::Turn;
use memory::Memory;
use one_way::OneWay;
use std::alloc::{AllocError, Global};
use vocabulary::refusal::Refused;

/// Boots a console over lent tables, performs the calls in order, and answers what each was answered, with the
/// console or the open turn at the end. A table that is refused gives function and memory back. Where there is no
/// memory for the outcomes, no call is performed, and the console is as it booted.
pub fn replay<'a, F: OneWay, M: Memory>(
    heap: Global,
    tables: &'a mut Tables,
    table: &[u8],
    function: F,
    memory: M,
    calls: Vec<Call>,
) -> Result<(Stage<'a, F, M>, Result<Vec<Outcome>, AllocError>), Refused<(F, M)>>
    ensures boot { told_opening result ≡ boot_answer (boot_rule table.now) }
    ensures ran { MatchResult result (λ x. Replayed (setting F.OneWay M.Memory table.now memory) (map call_of calls.items) (view F.OneWay M.Memory x.0) x.1) (λ x. x.given_back ≡ (function, memory)) }
    ensures isolated { Isolated (setting F.OneWay M.Memory table.now memory) }
{
    let console = Console::boot(tables, table, function, memory)?;
    Ok(perform_all(heap, Stage::Between(console), calls))
}

/// Performs calls in order, after those that have led here. Where there is no memory for the outcomes, none is
/// performed.
pub fn perform_all<'a, F: OneWay, M: Memory>(
    heap: Global,
    mut stage: Stage<'a, F, M>,
    calls: Vec<Call>,
) -> (Stage<'a, F, M>, Result<Vec<Outcome>, AllocError>)
    ensures ran { (S : Setting) (run : Run) → view F.OneWay M.Memory stage.entry ≡ stood S run → IfOk result.1 (λ v. Ran S run (map call_of calls.items) (map heard_of v.items) (view F.OneWay M.Memory result.0)) }
    ensures none { IfErr result.1 (λ _. view F.OneWay M.Memory result.0 ≡ view F.OneWay M.Memory stage.entry) }
{
    // By `match`, since the stage comes back beside the error.
    let mut outcomes = match Vec::with_capacity(heap, calls.len()) {
        Ok(outcomes) => outcomes,
        Err(error) => return (stage, Err(error)),
    };
    for call in calls {
        let (next, outcome) = perform(stage, call);
        stage = next;
        outcomes.push_reserved(outcome);
    }
    (stage, Ok(outcomes))
}

/// Performs one call.
pub fn perform<'a, F: OneWay, M: Memory>(
    stage: Stage<'a, F, M>,
    call: Call,
) -> (Stage<'a, F, M>, Outcome)
    ensures { Performed (view F.OneWay M.Memory stage.entry) (call_of call) (heard_of result.1) (view F.OneWay M.Memory result.0) }
{
    match stage {
        Stage::Between(console) => between(console, call),
        Stage::During(turn) => during(turn, call),
    }
}

fn between<'a, F: OneWay, M: Memory>(
    mut console: Console<'a, F, M>,
    call: Call,
) -> (Stage<'a, F, M>, Outcome)
    ensures { Performed (view_between F.OneWay M.Memory console.entry) (call_of call) (heard_of result.1) (view F.OneWay M.Memory result.0) }
{
    match call {
        Call::Create {
            slot,
            parameter,
            master,
            domains,
        } => {
            let answer = console
                .create(slot, parameter, master, &domains)
                .and(Ok(Reply::Done));
            (Stage::Between(console), Outcome::Answered(answer))
        }
        Call::End(slot) => {
            let answer = console.end(slot).and(Ok(Reply::Done));
            (Stage::Between(console), Outcome::Answered(answer))
        }
        Call::Turn(slot) => match console.turn(slot) {
            Ok(turn) => (Stage::During(turn), Outcome::Answered(Ok(Reply::Done))),
            Err(
                Refused {
                    refusal,
                    given_back: console,
                },
            ) => (Stage::Between(console), Outcome::Answered(Err(refusal))),
        },
        other => (Stage::Between(console), Outcome::OutOfTurn(other)),
    }
}

fn during<'a, F: OneWay, M: Memory>(
    mut turn: Turn<'a, F, M>,
    call: Call,
) -> (Stage<'a, F, M>, Outcome)
    ensures { Performed (view_during F.OneWay M.Memory turn.entry) (call_of call) (heard_of result.1) (view F.OneWay M.Memory result.0) }
{
    match call {
        Call::Close => (
            Stage::Between(turn.close()),
            Outcome::Answered(Ok(Reply::Done)),
        ),
        Call::Activate(password) => {
            let answer = turn.activate(password).map(Reply::Domain);
            (Stage::During(turn), Outcome::Answered(answer))
        }
        Call::Visit {
            password,
            accesses,
            mut buffer,
        } => {
            let answer = turn.visit(password, &accesses, &mut buffer);
            (Stage::During(turn), Outcome::Visited(answer, buffer))
        }
        Call::Grant {
            master,
            place,
            context,
        } => {
            let answer = turn.grant(master, place, context).map(Reply::Domain);
            (Stage::During(turn), Outcome::Answered(answer))
        }
        Call::Revoke {
            master,
            place,
            context,
        } => {
            let answer = turn.revoke(master, place, context).map(Reply::Domain);
            (Stage::During(turn), Outcome::Answered(answer))
        }
        Call::Derive { password, n } => {
            let answer = turn.derive(password, n).map(Reply::Password);
            (Stage::During(turn), Outcome::Answered(answer))
        }
        Call::Rekey { master, parameter } => {
            let answer = turn.rekey(master, parameter).and(Ok(Reply::Done));
            (Stage::During(turn), Outcome::Answered(answer))
        }
        Call::Read(address) => {
            let answer = turn.read(address).map(Reply::Byte);
            (Stage::During(turn), Outcome::Answered(answer))
        }
        Call::Write(address, byte) => {
            let answer = turn.write(address, byte).and(Ok(Reply::Done));
            (Stage::During(turn), Outcome::Answered(answer))
        }
        Call::Fetch(address) => {
            let answer = turn.fetch(address).map(Reply::Byte);
            (Stage::During(turn), Outcome::Answered(answer))
        }
        other => (Stage::During(turn), Outcome::OutOfTurn(other)),
    }
}
