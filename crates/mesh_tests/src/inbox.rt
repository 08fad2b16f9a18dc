//! Items that wait, in the order in which they came.
use aodv_inbox::Inbox;
use mesh_base::{Bytes, Item, NoMemory};
use std::test::Fail;

fn sender(item: Option<Item>) -> usize {
    match item {
        Some(Item::Heard { from, .. }) => from,
        _ => 0,
    }
}

fn hear(inbox: &mut Inbox, from: usize) -> Result<(), NoMemory> {
    inbox.make_room()?;
    inbox.push(Item::Heard {
        from,
        bytes: Bytes::empty(),
    });
    Ok(())
}

// Eight items come, and the first is taken out after the second has come.
fn keeps_seven(inbox: &mut Inbox) -> Result<bool, NoMemory> {
    let mut first = 0;
    for from in 1..9 {
        hear(inbox, from)?;
        if from == 2 {
            first = sender(inbox.pop());
        }
    }
    Ok(first == 1 && inbox.len() == 7)
}

fn gives_them_in_order(inbox: &mut Inbox) -> bool {
    for from in 2..9 {
        if sender(inbox.pop()) != from {
            return false;
        }
    }
    inbox.is_empty()
}

#[test]
fn first_in_is_first_out_across_a_growth(rt: HostRuntime) -> Result<(), Fail> {
    let mut inbox = Inbox::new(rt.alloc())?;
    assert!(rt; keeps_seven(&mut inbox)?);
    assert!(rt; gives_them_in_order(&mut inbox));
    Ok(())
}
