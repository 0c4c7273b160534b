//! The rows of the events that are open. They take no memory.

ghost use Rattle.std.specs.Prelude.{◌≡◌, ◌+◌, ◌<◌, ◌≤◌, ◌^◌, [], ◌∷◌, ◌++◌, All, List, cond, length, vec_capacity, vec_len};
ghost use Rattle.perf_base.specs.declared.acts.Act.{Act};
ghost use Rattle.perf_base.specs.Scripts.{IsCovered, Scripted};
ghost use Rattle.script_spec.specs.Printing.{kind_name};
ghost use Rattle.stage_spec.specs.Stage.{is_open};
ghost use Rattle.machine.specs.Events.{HasEvent};
ghost use Rattle.stage_spec.specs.Tables.{stage_in, family_in};
ghost use Rattle.machine.specs.Leading.{IsOf, LeadTo};
ghost use Rattle.stat_rows.specs.Rows.{row_of, rows_of};

use machine::Machine;
use perf_base::{EventNo, Kind, Name, Script, Sums};
use stat_table::StatRow;

/// The name of a kind, as a script writes it. A hardware kind that the script does not declare has none.
fn name_of(script: &Script, kind: Kind) -> Name
    ensures { result ≡ kind_name script.now.kinds kind }
{
    match kind {
        Kind::Hard(number) => {
            let number = usize::from(number);
            if number < script.kinds() {
                script.name(number)
            } else {
                Name::new()
            }
        }
        _ => Name::from_slice(kind.software_name()),
    }
}

/// The row of an open event with what it has counted.
fn row(machine: &Machine, script: &Script, event: EventNo, sums: Sums) -> StatRow
    requires covered { IsCovered script.now }
    requires script { IsOf script.now machine.now }
    requires there { HasEvent machine.now event }
    requires sums { (s : Scripted) (acts : List Act) → LeadTo s acts machine.now → sums ≡ family_in s acts event }
    ensures row { (acts : List Act) → LeadTo script.now acts machine.now → result ≡ row_of script.now acts event }
    ensures small { result.sums.running < 2 ^ 44 }
{
    script.use_invariant();
    StatRow {
        event,
        name: name_of(script, machine.kind(event)),
        sums,
        error: machine.error(event),
    }
}

/// Adds the row of a slot to a list that has room for it, where the slot holds an open event.
fn add_row(machine: &Machine, script: &Script, event: EventNo, rows: &mut Vec<StatRow>)
    requires covered { IsCovered script.now }
    requires script { IsOf script.now machine.now }
    requires room { vec_len rows.old < vec_capacity rows.old }
    ensures rows { (acts : List Act) → LeadTo script.now acts machine.now
        → rows.new.items ≡ rows.old.items ++ cond (is_open (stage_in script.now acts) event) (row_of script.now acts event ∷ []) [] }
    ensures small { All (λ row. row.sums.running < 2 ^ 44) rows.old.items → All (λ row. row.sums.running < 2 ^ 44) rows.new.items }
    ensures filled { vec_len rows.new ≤ vec_len rows.old + 1 }
    ensures capacity { vec_capacity rows.new ≡ vec_capacity rows.old }
{
    if let Some(sums) = machine.family(event) {
        rows.push_reserved(row(machine, script, event, sums));
    }
}

/// Adds to an empty list the row of each slot that holds an open event, by rising slot. The script is the one that the
/// machine was made for, and the list has room for 256 rows. It takes no memory.
pub fn fill_rows(machine: &Machine, script: &Script, rows: &mut Vec<StatRow>)
    requires covered { IsCovered script.now }
    requires script { IsOf script.now machine.now }
    requires none { rows.old.items ≡ [] }
    requires empty { vec_len rows.old ≡ 0 }
    requires room { 256 ≤ vec_capacity rows.old }
    ensures rows { (acts : List Act) → LeadTo script.now acts machine.now → rows.new.items ≡ rows_of script.now acts }
    ensures small { All (λ row. row.sums.running < 2 ^ 44) rows.new.items }
    ensures room { vec_capacity rows.new ≡ vec_capacity rows.old }
{
    for slot in 0..256 {
        let event = EventNo(slot);
        add_row(machine, script, event, rows);
    }
}
