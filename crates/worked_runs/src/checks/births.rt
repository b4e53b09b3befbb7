// Which ids of a birth are dereferenced, and in which order.

use crate::checks::failed::{Checked, wants};
use ids::{ObjectId, WorkerId};
use small_list::SmallList;
use std::alloc::{AllocError, Global};
use std::sync::Arc;
use task_spec::{Argument, Birth, dereferenced};
use values::RunValue;

fn object(owner: u32, serial: u64) -> ObjectId {
    ObjectId {
        owner: WorkerId(owner),
        serial,
    }
}

fn read(value: RunValue) -> Argument {
    Argument {
        value,
        is_dereferenced: true,
    }
}

fn kept(value: RunValue) -> Argument {
    Argument {
        value,
        is_dereferenced: false,
    }
}

fn task(alloc: Global, arguments: Vec<Argument>) -> Result<Birth, AllocError> {
    Ok(Birth::Task {
        function: Arc::new(alloc, String::from_str(alloc, "f")?)?,
        arguments: SmallList::from_vec(arguments),
        depth: 3,
        retries: 2,
        others: 0,
    })
}

/// Of a birth those ids alone are dereferenced whose arguments are marked, in their order, each as often as it stands there.
pub fn only_marked_references_are_dereferenced(alloc: Global) -> Checked {
    let listed = vec![in alloc; RunValue::Id(object(1, 9))]?;
    let arguments = vec![in alloc;
        read(RunValue::Id(object(2, 1))),
        kept(RunValue::Id(object(1, 3))),
        kept(RunValue::List(listed)),
        read(RunValue::Id(object(1, 4))),
        read(RunValue::Id(object(2, 1))),
        kept(RunValue::Int(7)),
    ]?;
    let found = dereferenced(&task(alloc, arguments)?, alloc)?;
    let expected = [object(2, 1), object(1, 4), object(2, 1)];
    wants(
        found.as_slice() == expected.as_slice(),
        "the ids of a birth's marked references",
    )
}
