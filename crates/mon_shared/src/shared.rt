ghost use Rattle.std.specs.Prelude.{◌≡◌, [], IfOk, IsTrue, length, ◌↔◌};

use std::alloc::{AllocError, Global};
use std::marker::Model;
use std::sync::Arc;

/// A list with several owners, which contracts see as its elements. The empty list needs no storage.
#[derive(Debug, Drop)]
pub struct SharedItems<T> {
    items: Option<Arc<Vec<T>>>,
}

impl<T> Model for SharedItems<T> {
    ghost use Rattle.std.specs.Prelude.{List};
    ghost use Rattle.std.specs.Coded.{coded_list};
    ghost use Rattle.mon_shared.specs.Sharing.{items_in};

    ghost Value = { List T };

    ghost coded = { coded_list T.code };

    ghost view = { λ s. items_in s.items };
}

impl<T> SharedItems<T> {
    /// The list without elements.
    pub fn new() -> SharedItems<T>
        ensures { result ≡ [] }
    {
        SharedItems { items: None }
    }

    /// The elements in order.
    pub fn as_slice(&self) -> &[T]
        ensures { result.now ≡ self.now }
    {
        match &self.items {
            None => &[],
            Some(items) => items.as_slice(),
        }
    }

    /// The number of elements.
    pub fn len(&self) -> usize
        ensures { result ≡ length self.now }
    {
        self.as_slice().len()
    }

    /// Whether there is no element.
    pub fn is_empty(&self) -> bool
        ensures { IsTrue result ↔ (self.now ≡ []) }
    {
        self.as_slice().is_empty()
    }

    /// Another owner of the same elements; refused only where the count of owners is full.
    pub fn share(&self) -> Result<SharedItems<T>, AllocError>
        ensures { IfOk result (λ s. s ≡ self.now) }
    {
        match &self.items {
            None => Ok(SharedItems { items: None }),
            Some(items) => Ok(SharedItems {
                items: Some(Arc::try_clone(items)?),
            }),
        }
    }
}

impl<T: Drop> SharedItems<T> {
    /// The list of these elements, without a copy of them.
    pub fn from_vec(items: Vec<T>) -> Result<SharedItems<T>, AllocError>
        ensures { IfOk result (λ s. s ≡ items.items) }
    {
        let alloc = *items.allocator();
        Ok(SharedItems {
            items: Some(Arc::new(alloc, items)?),
        })
    }
}

/// A value with several owners, which contracts see as that value.
#[derive(Debug, Drop)]
pub struct SharedBox<T> {
    inner: Arc<T>,
}

impl<T> Model for SharedBox<T> {
    ghost use Rattle.std.specs.Arc.{arc_value};

    ghost Value = { T };

    ghost coded = { T.code };

    ghost view = { λ l. arc_value l.inner };
}

impl<T> SharedBox<T> {
    /// The value.
    pub fn get(&self) -> &T
        ensures { result.now ≡ self.now }
    {
        &self.inner
    }

    /// Another owner of the same value; refused only where the count of owners is full.
    pub fn share(&self) -> Result<SharedBox<T>, AllocError>
        ensures { IfOk result (λ l. l ≡ self.now) }
    {
        Ok(SharedBox {
            inner: Arc::try_clone(&self.inner)?,
        })
    }
}

impl<T: Drop> SharedBox<T> {
    /// A value with one owner.
    pub fn new(alloc: Global, value: T) -> Result<SharedBox<T>, AllocError>
        ensures { IfOk result (λ l. l ≡ value) }
    {
        Ok(SharedBox {
            inner: Arc::new(alloc, value)?,
        })
    }
}
