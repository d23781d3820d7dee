use super::*;
use std::alloc::{AllocError, Global};
use std::test::Fail;
use umix_base::Limits;

#[derive(Drop)]
enum Call {
    Allocate(u32),
    Abandon(u32),
    Load(u32),
    Amend(u32, u32, u32),
    Index(u32, u32),
    Size(u32),
    Live,
    Made,
    Abandoned(u32),
}

fn told(alloc: Global, store: &mut Store, call: &Call) -> Result<String, AllocError> {
    match call {
        Call::Allocate(size) => format!(in alloc; "{:?}", store.allocate(*size)),
        Call::Abandon(id) => format!(in alloc; "{:?}", store.abandon(*id)),
        Call::Load(id) => format!(in alloc; "{:?}", store.load(*id)),
        Call::Amend(id, at, word) => format!(in alloc; "{:?}", store.amend(*id, *at, *word)),
        Call::Index(id, at) => format!(in alloc; "{:?}", store.index(*id, *at)),
        Call::Size(id) => format!(in alloc; "{:?}", store.size(*id)),
        Call::Live => format!(in alloc; "{:?}", store.live()),
        Call::Made => format!(in alloc; "{:?}", store.made()),
        Call::Abandoned(k) => format!(in alloc; "{:?}", store.abandoned(*k)),
    }
}

#[test]
fn answers(rt: HostRuntime) -> Result<(), Fail> {
    let alloc = rt.alloc();
    let ample = Limits {
        arrays: MOST_ARRAYS,
        words: MOST_WORDS,
    };
    let few = Limits {
        arrays: 3,
        words: 100,
    };
    let short = Limits {
        arrays: 3,
        words: 4,
    };
    let mut stores = [
        Store::new(alloc, [10, 20].to_vec(alloc)?, ample)?,
        Store::new(alloc, [0].to_vec(alloc)?, few)?,
        Store::new(alloc, [0, 0].to_vec(alloc)?, short)?,
        Store::new(alloc, [5].to_vec(alloc)?, ample)?,
    ];
    for (store, call, want) in [
        // Words aren't shared after a load, and an identifier comes back.
        (0, Call::Allocate(2), "Ok(1)"),
        (0, Call::Amend(1, 0, 7), "Ok(())"),
        (0, Call::Load(1), "Ok(())"),
        (0, Call::Amend(1, 0, 9), "Ok(())"),
        (0, Call::Index(0, 0), "Ok(7)"),
        (0, Call::Index(1, 0), "Ok(9)"),
        (0, Call::Amend(0, 1, 3), "Ok(())"),
        (0, Call::Index(1, 1), "Ok(0)"),
        (0, Call::Abandon(1), "Ok(())"),
        (0, Call::Index(0, 0), "Ok(7)"),
        (0, Call::Allocate(1), "Ok(1)"),
        (0, Call::Allocate(1), "Ok(2)"),
        (0, Call::Amend(1, 0, 5), "Ok(())"),
        (0, Call::Index(0, 0), "Ok(7)"),
        (0, Call::Index(0, 1), "Ok(3)"),
        (0, Call::Index(0, 2), "Err(Outside)"),
        (0, Call::Amend(3, 0, 1), "Err(Inactive)"),
        (0, Call::Size(0), "Some(2)"),
        (0, Call::Size(3), "None"),
        // A limit of three arrays.
        (1, Call::Allocate(1), "Ok(1)"),
        (1, Call::Allocate(1), "Ok(2)"),
        (1, Call::Allocate(1), "Ok(3)"),
        (1, Call::Allocate(1), "Err(ArraysFull(4))"),
        (1, Call::Abandon(2), "Ok(())"),
        (1, Call::Allocate(5), "Ok(2)"),
        (1, Call::Live, "(3, 8)"),
        // A limit of four words, in which a loaded array counts twice.
        (2, Call::Allocate(3), "Err(WordsFull(5))"),
        (2, Call::Allocate(2), "Ok(1)"),
        (2, Call::Load(1), "Ok(())"),
        (2, Call::Load(2), "Err(Inactive)"),
        (2, Call::Abandon(0), "Err(Zero)"),
        // Array 0 keeps its words where the array that it was loaded from goes.
        (3, Call::Allocate(1), "Ok(1)"),
        (3, Call::Load(1), "Ok(())"),
        (3, Call::Load(0), "Ok(())"),
        (3, Call::Amend(0, 0, 6), "Ok(())"),
        (3, Call::Index(1, 0), "Ok(0)"),
        (3, Call::Live, "(1, 2)"),
        (3, Call::Load(1), "Ok(())"),
        (3, Call::Abandon(1), "Ok(())"),
        (3, Call::Allocate(1), "Ok(1)"),
        (3, Call::Amend(1, 0, 8), "Ok(())"),
        (3, Call::Index(0, 0), "Ok(0)"),
        (3, Call::Load(1), "Ok(())"),
        (3, Call::Index(0, 0), "Ok(8)"),
        // The identifiers abandoned and not reused, the first at the beginning.
        (3, Call::Allocate(1), "Ok(2)"),
        (3, Call::Allocate(1), "Ok(3)"),
        (3, Call::Abandon(3), "Ok(())"),
        (3, Call::Abandon(1), "Ok(())"),
        (3, Call::Made, "3"),
        (3, Call::Abandoned(0), "Some(3)"),
        (3, Call::Abandoned(1), "Some(1)"),
        (3, Call::Abandoned(2), "None"),
    ] {
        assert!(rt; store < 4);
        let answer = told(alloc, &mut stores[store], &call)?;
        assert_eq!(rt; answer.as_str(), want);
    }
    let over = Store::new(
        alloc,
        [0, 0].to_vec(alloc)?,
        Limits {
            arrays: 3,
            words: 1,
        },
    );
    assert!(rt; matches!(over, Err(StoreFault::WordsFull(2))));
    Ok(())
}

#[test]
fn messages(rt: HostRuntime) -> Result<(), Fail> {
    for (fault, want) in [
        (StoreFault::Inactive, "Inactive"),
        (StoreFault::Outside, "Outside"),
        (StoreFault::Zero, "Zero"),
        (StoreFault::ArraysFull(4), "ArraysFull"),
        (StoreFault::WordsFull(5), "WordsFull"),
        (StoreFault::Memory, "Memory"),
    ] {
        let text = format!(in rt.alloc(); "{fault}")?;
        assert_eq!(rt; text.as_str(), want);
    }
    Ok(())
}

#[test]
fn a_million_times(rt: HostRuntime) -> Result<(), Fail> {
    let alloc = rt.alloc();
    let limits = Limits {
        arrays: 3,
        words: 100,
    };
    let mut store = Store::new(alloc, [0].to_vec(alloc)?, limits)?;
    let _kept = store.allocate(9)?;
    for _ in 0..1_000_000 {
        let id = store.allocate(90)?;
        assert_eq!(rt; id, 2);
        store.abandon(id)?;
    }
    assert_eq!(rt; store.live(), (1, 10));
    Ok(())
}

#[test]
fn loads_make_no_copy(rt: HostRuntime) -> Result<(), Fail> {
    let alloc = rt.alloc();
    let ample = Limits {
        arrays: MOST_ARRAYS,
        words: MOST_WORDS,
    };
    let mut store = Store::new(alloc, [5].to_vec(alloc)?, ample)?;
    assert_eq!(rt; store.allocate(16_777_216)?, 1);
    assert_eq!(rt; store.allocate(16_777_216)?, 2);
    store.amend(2, 16_777_215, 9)?;
    for _ in 0..500_000 {
        store.load(1)?;
        store.load(2)?;
    }
    assert_eq!(rt; store.index(0, 16_777_215)?, 9);
    assert_eq!(rt; store.live(), (2, 50_331_648));
    Ok(())
}
