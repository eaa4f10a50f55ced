//! Each call of a desk, by one thread. What is expected is derived from the rules by hand.

ghost use Rattle.std.specs.Prelude.{◌≡◌, ◌≤◌, [], ◌∷◌, length};
ghost use Rattle.desk_lock.specs.Tokens as tokens_spec;

use crate::toy::{
    ToyPass, begin, claim, edit, hired, name, page, part_of, plan, publish, put, remove, started,
};
use desk_core::Limits;
use dita_doc::{Reply, Stop};
use fact_table::Claimed;
use facts::Row;
use std::test::Fail;

// A text is put at place 0, so the build at place 1 has the stamp 1 and one name. Its page is
// granted to the first hand, under the first serial. The second meets that claim. The row counts
// for 5 bytes of HTML, 64, and 32 for the name; the third hand has it.
#[test]
fn a_part_is_granted_met_published_and_had(rt: HostRuntime) -> Result<(), Fail> {
    let alloc = rt.alloc();
    let map = name(alloc, "a")?;
    let key = page(&map, 0)?;
    let (desk, mut pass) = started(alloc, Limits::standard())?;
    let stored = edit(&rt, alloc, &desk, &mut pass, 1, put(alloc, &map)?)?;
    assert!(rt; matches!(&stored, (0, Reply::Stored(1))));
    let (place, snapshot) = begin(&rt, alloc, &desk, &mut pass, 2, &map)?;
    assert_eq!(rt;
        (place, snapshot.stamp, snapshot.sources.names()),
        (1, 1, 1)
    );
    let mut first = hired(&desk, &mut pass, &snapshot);
    let mut second = hired(&desk, &mut pass, &snapshot);
    let mut third = hired(&desk, &mut pass, &snapshot);
    let part = part_of(alloc, &key)?;
    let Claimed::Yours(ticket) = claim(&rt, alloc, &desk, &mut first, &key, &snapshot)? else {
        return Err(Fail::new("not granted"));
    };
    assert_eq!(rt; ticket.serial(), 1);
    let met = claim(&rt, alloc, &desk, &mut second, &key, &snapshot)?;
    assert!(rt; matches!(&met, Claimed::Taken(1)));
    let row = publish(&rt, &desk, &mut first, ticket, part, &snapshot);
    assert_eq!(rt; numbers(&row), [1, 1, 1, 1, 101]);
    let had = row_of(claim(&rt, alloc, &desk, &mut third, &key, &snapshot)?)?;
    assert_eq!(rt; numbers(&had), [1, 1, 1, 1, 101]);
    desk.join(&mut pass, first);
    desk.join(&mut pass, second);
    desk.join(&mut pass, third);
    let book = desk.close(&rt, pass);
    assert_eq!(rt; book.store().entries(), 2);
    let table = book.table();
    assert_eq!(rt; (table.kept(), table.made(), table.dropped()), (1, 1, 0));
    Ok(())
}

// The serial, stamp, rank, mark and bytes of a row.
fn numbers(row: &Row) -> [u64; 5] {
    [row.serial, row.stamp, row.rank, row.mark, row.bytes]
}

// A claim that is released runs no more, so the next one is granted, under the next serial.
#[test]
fn a_claim_is_released(rt: HostRuntime) -> Result<(), Fail> {
    let alloc = rt.alloc();
    let map = name(alloc, "a")?;
    let key = page(&map, 0)?;
    let (desk, mut pass) = started(alloc, Limits::standard())?;
    let (place, snapshot) = begin(&rt, alloc, &desk, &mut pass, 1, &map)?;
    assert_eq!(rt;
        (place, snapshot.stamp, snapshot.sources.names()),
        (0, 0, 0)
    );
    let mut hand = hired(&desk, &mut pass, &snapshot);
    let Claimed::Yours(one) = claim(&rt, alloc, &desk, &mut hand, &key, &snapshot)? else {
        return Err(Fail::new("not granted"));
    };
    assert_eq!(rt; one.serial(), 1);
    desk.release(&rt, &mut hand, one);
    let mut other = hired(&desk, &mut pass, &snapshot);
    let Claimed::Yours(two) = claim(&rt, alloc, &desk, &mut other, &key, &snapshot)? else {
        return Err(Fail::new("not granted again"));
    };
    assert_eq!(rt; two.serial(), 2);
    desk.release(&rt, &mut other, two);
    desk.join(&mut pass, hand);
    desk.join(&mut pass, other);
    let book = desk.close(&rt, pass);
    let table = book.table();
    assert_eq!(rt; (table.kept(), table.made(), table.dropped()), (0, 0, 0));
    Ok(())
}

// The row with which a claim is answered.
fn row_of(answer: Claimed) -> Result<Row, Fail> {
    match answer {
        Claimed::Have(row) => Ok(row),
        Claimed::Yours(_) | Claimed::Taken(_) => Err(Fail::new("not had")),
    }
}

// A plan that was claimed for one build is had by it and by the next. Two texts are put, so the
// build at place 2 has the stamp 2 and two names. Its plan is granted under the first serial, and a
// second hand meets that claim. A text is put anew before the plan is published: the mark is still
// 1, and the row counts for 64 and twice 32. The build at place 4 has the stamp 4.
#[test]
fn a_plan_serves_two_builds(rt: HostRuntime) -> Result<(), Fail> {
    let alloc = rt.alloc();
    let map = name(alloc, "m.ditamap")?;
    let text = name(alloc, "t.dita")?;
    let key = plan(&map)?;
    let (desk, mut pass) = started(alloc, Limits::standard())?;
    let stored = edit(&rt, alloc, &desk, &mut pass, 1, put(alloc, &map)?)?;
    assert!(rt; matches!(&stored, (0, Reply::Stored(1))));
    let stored = edit(&rt, alloc, &desk, &mut pass, 2, put(alloc, &text)?)?;
    assert!(rt; matches!(&stored, (1, Reply::Stored(2))));
    let (place, snapshot) = begin(&rt, alloc, &desk, &mut pass, 3, &map)?;
    assert_eq!(rt; (place, snapshot.stamp), (2, 2));
    let mut first = hired(&desk, &mut pass, &snapshot);
    let mut second = hired(&desk, &mut pass, &snapshot);
    let part = part_of(alloc, &key)?;
    let Claimed::Yours(ticket) = claim(&rt, alloc, &desk, &mut first, &key, &snapshot)? else {
        return Err(Fail::new("not granted"));
    };
    assert_eq!(rt; ticket.serial(), 1);
    let met = claim(&rt, alloc, &desk, &mut second, &key, &snapshot)?;
    assert!(rt; matches!(&met, Claimed::Taken(1)));
    let stored = edit(&rt, alloc, &desk, &mut pass, 4, put(alloc, &text)?)?;
    assert!(rt; matches!(&stored, (3, Reply::Stored(4))));
    let row = publish(&rt, &desk, &mut first, ticket, part, &snapshot);
    assert_eq!(rt; numbers(&row), [1, 2, 1, 1, 128]);
    let had = row_of(claim(&rt, alloc, &desk, &mut second, &key, &snapshot)?)?;
    assert_eq!(rt; numbers(&had), [1, 2, 1, 1, 128]);
    let (place, later) = begin(&rt, alloc, &desk, &mut pass, 5, &map)?;
    assert_eq!(rt; (place, later.stamp), (4, 4));
    let mut third = hired(&desk, &mut pass, &later);
    let had = row_of(claim(&rt, alloc, &desk, &mut third, &key, &later)?)?;
    assert_eq!(rt; numbers(&had), [1, 2, 1, 1, 128]);
    desk.join(&mut pass, first);
    desk.join(&mut pass, second);
    desk.join(&mut pass, third);
    let book = desk.close(&rt, pass);
    assert_eq!(rt; book.store().entries(), 5);
    let table = book.table();
    assert_eq!(rt; (table.kept(), table.made(), table.dropped()), (1, 1, 0));
    Ok(())
}

// What one pass stores the other removes, and each entry has the session of its pass. Of the two
// places the first pass has its own alone, also when it has taken in the other.
#[test]
fn two_passes_have_one_history(rt: HostRuntime) -> Result<(), Fail> {
    let alloc = rt.alloc();
    let text = name(alloc, "a")?;
    let (desk, mut pass) = started(alloc, Limits::standard())?;
    let mut other = desk.session(&mut pass, 1);
    let stored = edit(&rt, alloc, &desk, &mut pass, 1, put(alloc, &text)?)?;
    assert!(rt; matches!(&stored, (0, Reply::Stored(1))));
    let removed = edit(&rt, alloc, &desk, &mut other, 1, remove(&text)?)?;
    assert!(rt; matches!(&removed, (1, Reply::Removed(1))));
    desk.end_session(&mut pass, other);
    has_one_place(&pass, stored.0);
    let book = desk.close(&rt, pass);
    assert_eq!(rt; book.store().entries(), 2);
    let (first, last) = (book.store().entry(0), book.store().entry(1));
    assert_eq!(rt; (first.session, first.number), (0, 1));
    assert_eq!(rt; (last.session, last.number), (1, 1));
    Ok(())
}

// It does nothing: that the pass has this place and no other, and has seen two entries at least, is
// proved where it is called.
fn has_one_place(_pass: &ToyPass, _place: u64)
    requires place { (tokens_spec.pass_view _pass.now).mine ≡ _place ∷ [] }
    requires seen { 2 ≤ length (tokens_spec.pass_view _pass.now).seen }
{}

// A history that may have one entry has one, of one byte, and takes no more.
#[test]
fn a_full_desk_says_what_stands_in_it(rt: HostRuntime) -> Result<(), Fail> {
    let alloc = rt.alloc();
    let text = name(alloc, "a")?;
    let limits = Limits {
        entries: 1,
        ..Limits::standard()
    };
    let (desk, mut pass) = started(alloc, limits)?;
    let first = edit(&rt, alloc, &desk, &mut pass, 1, remove(&text)?)?;
    assert!(rt; matches!(&first, (0, Reply::Absent)));
    let Err(Stop::Fault(full)) = desk.edit(&rt, alloc, &mut pass, 2, remove(&text)?) else {
        return Err(Fail::new("not full"));
    };
    assert_eq!(rt; (full.entries, full.bytes), (1, 1));
    let book = desk.close(&rt, pass);
    assert_eq!(rt; book.store().entries(), 1);
    Ok(())
}
