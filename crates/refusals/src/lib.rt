// The refusal that a command meets after expiry, decided by reading alone. Whoever is refused so has changed nothing.
#![tactic(auto)]

ghost use Rattle.std.specs.Prelude.{◌≡◌, true, not, ◌&&◌, [], ℕ, ◌<◌, eqb};
ghost use Rattle.machine.specs.Sizes.{step_max};
ghost use Rattle.machine.specs.Tables.{first};
ghost use Rattle.machine.specs.State.{State};
ghost use Rattle.machine.specs.Expiry.{expire};
ghost use Rattle.machine.specs.Sound.{sound};
ghost use Rattle.machine.specs.Refusals.{not_live, staging_refusals, refusals, refusal};
ghost use Rattle.machine.specs.declared.Command.TheVariants.{Begin, Get, Fill, Quar, Stage, Delta, Validate, Done, Undo, Evict};
ghost use Rattle.layout.specs.Holds.{Holds};
ghost use Rattle.refusals.specs.Met.{refusal_of, Meets};

use layout::Buffer;
use machine::{Command, Refusal, Validation};

mod after;

fn begin(s: &Buffer, time: u64) -> Result<(), Refusal>
    ensures { Meets s.now time (λ σ. first (refusals σ Begin [])) result }
{
    if after::sessions_full(s, time) {
        return Err(Refusal::Full);
    }
    if machine::NUMBER_MAX <= header::next_session(s) {
        return Err(Refusal::Numbers);
    }
    Ok(())
}

// Refusal 5 of GET: a session that is not live, other than 0.
fn is_unknown(s: &Buffer, session: u64, time: u64) -> bool
    ensures { (σ : State) → Holds s.now σ → sound σ ≡ true → result ≡ (not (eqb session 0) && not_live (expire time σ) session) }
{
    if session == 0 {
        return false;
    }
    after::session(s, session, time).is_none()
}

// That no token is left is asked first: it is the rare case.
fn get(s: &Buffer, time: u64, session: u64, key: u64) -> Result<(), Refusal>
    ensures { Meets s.now time (λ σ. first (refusals σ (Get session key) [])) result }
{
    if layout::KEY_COUNT as u64 <= key {
        return Err(Refusal::Arg);
    }
    if is_unknown(s, session, time) {
        return Err(Refusal::NoSession);
    }
    if header::next_token(s) < machine::NUMBER_MAX {
        return Ok(());
    }
    if after::would_lease(s, key as usize, time) {
        return Err(Refusal::Numbers);
    }
    Ok(())
}

fn fill(key: u64, value: &[u8]) -> Result<(), Refusal>
    ensures { (σ : State) (token : ℕ) → result ≡ refusal_of (first (refusals σ (Fill token key) value.now)) }
{
    if layout::KEY_COUNT as u64 <= key {
        return Err(Refusal::Arg);
    }
    if layout::VALUE_MAX < value.len() {
        return Err(Refusal::Long);
    }
    Ok(())
}

// Where every row is taken after expiry none goes, so what is granted is read off the state as it is.
fn quar(s: &Buffer, time: u64, session: u64, key: u64, kind: u64) -> Result<(), Refusal>
    ensures { Meets s.now time (λ σ. first (refusals σ (Quar session key kind) [])) result }
{
    if layout::KEY_COUNT as u64 <= key {
        return Err(Refusal::Arg);
    }
    if !decisions::is_kind(kind) {
        return Err(Refusal::Arg);
    }
    let Some(x) = after::session(s, session, time) else {
        return Err(Refusal::NoSession);
    };
    if x.is_sealed() {
        return Err(Refusal::Sealed);
    }
    if !after::rows_full(s, time) {
        return Ok(());
    }
    if quars::would_grant(s, x.number, key as u8, kind as u8) {
        return Err(Refusal::Room);
    }
    Ok(())
}

// The refusals 5 to 10. A session that stays keeps its record and its rows.
fn staging(
    s: &Buffer,
    time: u64,
    session: u64,
    step: u64,
    k: usize,
    kind: u8,
) -> Result<(), Refusal>
    requires { step < step_max }
    ensures { Meets s.now time (λ σ. first (staging_refusals σ session step k kind)) result }
{
    if after::session(s, session, time).is_none() {
        return Err(Refusal::NoSession);
    }
    stages::find(s, session, step, k, kind)?;
    Ok(())
}

fn stage(
    s: &Buffer,
    time: u64,
    session: u64,
    step: u64,
    key: u64,
    value: &[u8],
) -> Result<(), Refusal>
    ensures { Meets s.now time (λ σ. first (refusals σ (Stage session step key) value.now)) result }
{
    if layout::KEY_COUNT as u64 <= key {
        return Err(Refusal::Arg);
    }
    if machine::STEP_MAX <= step {
        return Err(Refusal::Arg);
    }
    if layout::VALUE_MAX < value.len() {
        return Err(Refusal::Long);
    }
    staging(s, time, session, step, key as usize, machine::REFRESH)
}

fn delta(
    s: &Buffer,
    time: u64,
    session: u64,
    step: u64,
    key: u64,
    operation: u64,
    operand: &[u8],
) -> Result<(), Refusal>
    ensures { Meets s.now time (λ σ. first (refusals σ (Delta session step key operation) operand.now)) result }
{
    if layout::KEY_COUNT as u64 <= key {
        return Err(Refusal::Arg);
    }
    if !decisions::is_operation(operation) {
        return Err(Refusal::Arg);
    }
    if machine::STEP_MAX <= step {
        return Err(Refusal::Arg);
    }
    if layout::VALUE_MAX < operand.len() {
        return Err(Refusal::Long);
    }
    staging(s, time, session, step, key as usize, machine::INCREMENTAL)
}

fn validate(s: &Buffer, time: u64, session: u64, count: u64) -> Result<(), Refusal>
    ensures { Meets s.now time (λ σ. first (refusals σ (Validate session count) [])) result }
{
    if machine::STEP_MAX < count {
        return Err(Refusal::Arg);
    }
    let Some(x) = after::session(s, session, time) else {
        return Err(Refusal::NoSession);
    };
    match x.validate(count) {
        Validation::Seals(_) => Ok(()),
        Validation::Loses => Ok(()),
        Validation::Clashes => Err(Refusal::Sealed),
    }
}

fn done(s: &Buffer, time: u64, session: u64) -> Result<(), Refusal>
    ensures { Meets s.now time (λ σ. first (refusals σ (Done session) [])) result }
{
    let Some(x) = after::session(s, session, time) else {
        return Err(Refusal::NoSession);
    };
    if !x.is_sealed() {
        return Err(Refusal::NotSealed);
    }
    Ok(())
}

fn undo(s: &Buffer, time: u64, session: u64) -> Result<(), Refusal>
    ensures { Meets s.now time (λ σ. first (refusals σ (Undo session) [])) result }
{
    if after::session(s, session, time).is_none() {
        return Err(Refusal::NoSession);
    }
    Ok(())
}

fn evict(key: u64) -> Result<(), Refusal>
    ensures { (σ : State) → result ≡ refusal_of (first (refusals σ (Evict key) [])) }
{
    if layout::KEY_COUNT as u64 <= key {
        return Err(Refusal::Arg);
    }
    Ok(())
}

// A command's own refusals, CLOCK aside.
fn of(s: &Buffer, time: u64, command: Command, value: &[u8]) -> Result<(), Refusal>
    ensures { Meets s.now time (λ σ. first (refusals σ command value.now)) result }
{
    match command {
        Command::Begin => begin(s, time),
        Command::Get { session, key } => get(s, time, session, key),
        Command::Fill { key, .. } => fill(key, value),
        Command::Quar { session, key, kind } => quar(s, time, session, key, kind),
        Command::Stage { session, step, key } => stage(s, time, session, step, key, value),
        Command::Delta {
            session,
            step,
            key,
            operation,
        } => delta(s, time, session, step, key, operation, value),
        Command::Validate { session, count } => validate(s, time, session, count),
        Command::Done { session } => done(s, time, session),
        Command::Undo { session } => undo(s, time, session),
        Command::Evict { key } => evict(key),
        Command::Tick => Ok(()),
    }
}

// The first refusal that applies on the state after expiry, CLOCK before the command's own.
pub fn find(s: &Buffer, time: u64, command: Command, value: &[u8]) -> Result<(), Refusal>
    ensures { Meets s.now time (λ σ. refusal σ time command value.now) result }
{
    if time < header::clock(s) {
        return Err(Refusal::Clock);
    }
    if machine::TIME_MAX < time {
        return Err(Refusal::Clock);
    }
    of(s, time, command, value)
}
