// The state tables of Doc 9705 as rows (table.rt), and a plain engine that walks them (document 02, E10). Crate rows has what it gives.
#![tactic(auto)]

mod codes;
mod effects;
mod events;
mod reason;
mod table;

ghost use Rattle.std.specs.Prelude.{◌≡◌, ◌<◌};
ghost use Rattle.rows.specs.Table.{rows};
ghost use Rattle.rows.specs.Engine.{side_fits, title_fits, number_fits, flag_fits, condition_fits, fits, walk, row_of, rows_numbered};
ghost use Rattle.rows_engine.specs.Packing.{row_of_number};

use control::{Control, Side};
use effects::outcome_of;
use events::{condition_of, parameters_of, title_of};
use machine::event::Event;
use machine::outcome::{Outcome, StepRefusal};
use machine::record::Record;
use numbered::is_stale;
use rows::{Out, Row};

// A row of its number.
#[tactic(auto, unfolding(crate::specs::Packing::row_of_number))]
fn row_of(x: u64) -> Row
    ensures { result ≡ row_of_number x }
{
    Row {
        side: x / table::SIDE % 4,
        event: x / table::EVENT % 256,
        state: x / table::STATE % 16,
        dsc: x / table::DSC % 4,
        condition: x / table::CONDITION % 256,
        out: Out {
            next: x / table::NEXT % 16,
            dsc: x / table::NEXT_DSC % 4,
            timer: x / table::TIMER % 4,
            user: x / table::USER % 4,
            keeps: x / table::KEEPS % 4,
            refusal: x / table::REFUSAL % 16,
            sends: x / table::SENDS % 16,
            reason: x / table::REASON % 16,
            tells: x / table::TELLS % 16,
            why: x % 16,
        },
        mark: x / table::MARK % 16,
    }
}

#[tactic(auto, unfolding(rows::specs::Engine::side_fits))]
fn side_fits(x: u64, side: Side) -> bool
    ensures { result ≡ side_fits x side }
{
    match side {
        Side::Air => x != codes::GROUND,
        Side::Ground => x != codes::AIR,
    }
}

// A title, or one of the four that stand for several.
#[tactic(auto, unfolding(rows::specs::Engine::title_fits))]
fn title_fits(x: u64, title: u64) -> bool
    ensures { result ≡ title_fits x title }
{
    match x {
        ..codes::ANY_USER => x == title,
        codes::ANY_USER => title < codes::D_START,
        codes::ANY_SERVICE => codes::D_START <= title && title < codes::EXPIRY,
        codes::D_START_CONFIRMATION => {
            title == codes::D_START_ACCEPTED || title == codes::D_START_REJECTED
        }
        _ => title == codes::D_END_ACCEPTED || title == codes::D_END_REJECTED,
    }
}

#[tactic(auto, unfolding(rows::specs::Engine::number_fits))]
fn state_fits(x: u64, state: u64) -> bool
    ensures { result ≡ number_fits x state }
{
    match x {
        codes::ANY_STATE => true,
        codes::BUSY => state != codes::IDLE,
        _ => x == state,
    }
}

#[tactic(auto, unfolding(rows::specs::Engine::flag_fits))]
fn flag_fits(x: u64, on: bool) -> bool
    ensures { result ≡ flag_fits x on }
{
    x == codes::AS_IS || x == (if on { codes::YES } else { codes::NO })
}

#[tactic(auto, unfolding(rows::specs::Engine::condition_fits))]
fn condition_fits(x: u64, condition: u64) -> bool
    ensures { result ≡ condition_fits x condition }
{
    x == codes::ANYHOW || x == condition
}

#[tactic(auto, unfolding(rows::specs::Engine::fits))]
fn fits(row: Row, side: Side, c: Control, title: u64, condition: u64) -> bool
    ensures { result ≡ fits row side c title condition }
{
    title_fits(row.event, title)
        && state_fits(row.state, u64::from(c.state))
        && side_fits(row.side, side)
        && flag_fits(row.dsc, c.dsc)
        && condition_fits(row.condition, condition)
}

// The first row that fits.
pub fn walk(side: Side, c: Control, title: u64, condition: u64) -> Out
    ensures { result ≡ walk rows side c title condition }
{
    for &x in &table::ROWS {
        let row = row_of(x);
        if fits(row, side, c, title, condition) {
            return row.out;
        }
    }
    Out {
        next: codes::STAYS,
        dsc: codes::AS_IS,
        timer: codes::AS_IS,
        user: codes::AS_IS,
        keeps: codes::NOTHING,
        refusal: codes::TAKEN,
        sends: codes::SILENT,
        reason: 0,
        tells: codes::UNTOLD,
        why: 0,
    }
}

// The row of an event.
#[tactic(auto, unfolding(rows::specs::Engine::row_of))]
fn row_for(side: Side, r: Record, e: Event) -> Out
    ensures { result ≡ row_of side r e }
{
    walk(side, r.control, title_of(e), condition_of(side, r, e))
}

// One event at one machine whose record holds a number: SHAPE, STALE, then what the first row that fits says.
#[tactic(auto, unfolding(rows::specs::Engine::rows_numbered))]
pub fn step(side: Side, r: Record, held: u64, e: Event, brought: u64) -> Outcome
    ensures { result ≡ rows_numbered side r held e brought }
{
    if !e.fits(side, r.edition) {
        return Outcome::refused(Some(StepRefusal::Shape), r);
    }
    if is_stale(held, e, brought) {
        return Outcome::refused(Some(StepRefusal::Stale), r);
    }
    outcome_of(r, parameters_of(r, e), row_for(side, r, e))
}
