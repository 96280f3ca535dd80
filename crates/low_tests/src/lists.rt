//! Each allocating call of `fp_lists` once, with ample memory.
use fp_lists::{Bytes, List};
use std::alloc::{AllocError, Global};

// Whether bytes grow.
fn bytes_grow(bytes: &mut Bytes) -> bool {
    let is_grown = bytes.push(7).is_ok() && bytes.append(&[8, 9]).is_ok();
    is_grown && bytes.as_slice() == [7, 8, 9].as_slice()
}

// Whether a copy of bytes, and a copy of that, are the same.
fn bytes_are_copied(alloc: Global, bytes: &Bytes) -> bool {
    match (Bytes::from_slice(alloc, &[7, 8, 9]), bytes.copy()) {
        (Ok(one), Ok(other)) => one == *bytes && other == *bytes && other.into_vec().len() == 3,
        _ => false,
    }
}

// Whether a list grows.
fn a_list_grows(alloc: Global, list: &mut List<u64>) -> bool {
    let is_grown = match Vec::from_slice(alloc, &[6]) {
        Ok(more) => list.push(1).is_ok() && list.append(List::from_vec(more)).is_ok(),
        Err(AllocError) => false,
    };
    is_grown && list.as_slice() == [1, 6].as_slice()
}

// Whether a list of two is written in place, and gives its last.
fn a_list_is_written_in_place(list: &mut List<u64>) -> bool {
    if list.len() != 2 {
        return false;
    }
    *list.item_mut(1) = 5;
    let is_written = list.as_slice() == [1, 5].as_slice() && list.get(2).is_none();
    is_written && list.pop() == Some(5)
}

#[test]
fn bytes_find_memory(rt: HostRuntime) {
    let mut bytes = Bytes::new(rt.alloc());
    assert!(rt; bytes_grow(&mut bytes) && bytes_are_copied(rt.alloc(), &bytes));
}

#[test]
fn lists_find_memory(rt: HostRuntime) {
    let mut list = List::new(rt.alloc());
    assert!(rt; a_list_grows(rt.alloc(), &mut list) && a_list_is_written_in_place(&mut list));
}
