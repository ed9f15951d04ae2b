//! A store that something else has written: the search ends, and keeps what every answer keeps.
use crate::ask::ask;
use crate::chance::Chance;
use crate::scan::first_of;
use crate::sets::{Four, four};
use crate::supplier::Supplier;
use search::Query;
use std::process::Abort;
use std::test::*;

fn ask_drawn(
    rt: &impl Abort,
    supplier: &mut Supplier<Four>,
    chance: &mut Chance,
) -> Result<(), Fail> {
    let drawn = chance.question();
    let query = Query {
        rows: first_of(&drawn.rows, 12),
        weights: first_of(&drawn.weights, 4),
        aggregate: drawn.aggregate,
        k: drawn.k,
        radius: drawn.radius,
    };
    ask(
        rt,
        &mut supplier.index,
        &supplier.store,
        &query,
        chance.budget(),
    )?;
    Ok(())
}

fn ask_often(
    rt: &impl Abort,
    supplier: &mut Supplier<Four>,
    chance: &mut Chance,
) -> Result<(), Fail> {
    for _ in 0..8 {
        supplier.scramble(chance);
        ask_drawn(rt, supplier, chance)?;
    }
    Ok(())
}

#[test]
fn any_bytes_are_searched(rt: HostRuntime) -> Result<(), Fail> {
    let mut chance = Chance::new(5);
    for _ in 0..32 {
        let mut held = Vec::new(rt.alloc());
        let mut supplier = Supplier::new(four(3, 1), 12)?;
        supplier.change_often(&rt, &mut held, &mut chance, 100)?;
        ask_often(&rt, &mut supplier, &mut chance)?;
    }
    Ok(())
}
