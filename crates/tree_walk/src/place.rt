// A page on the way from the root to where a cursor stands.
use crate::page::TreePage;
use cell_codec::PageKind;
use owned_list::OwnedList;
use rbu_value::Bytes;
use std::alloc::Global;
use std::default::MadeWith;

/// A page on the way to where a cursor stands, the bounds of its rowids, and the cell at which the cursor stands, or the child in which it is. The rowids are above `low`, and none is above `high`.
#[derive(Drop)]
pub struct Place {
    pub page: TreePage,
    pub low: Option<i64>,
    pub high: i64,
    pub at: usize,
}

/// What fills the unused places of a path.
impl MadeWith<Global> for Place {
    fn made_with(alloc: Global) -> Place {
        Place {
            page: TreePage {
                number: 0,
                kind: PageKind::TableLeaf,
                bytes: Bytes::from_vec(Vec::new(alloc)),
                views: OwnedList::from_vec(Vec::new(alloc)),
                right: 0,
            },
            low: None,
            high: 0,
            at: 0,
        }
    }
}
