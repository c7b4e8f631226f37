//! The handle by which a host holds a compiled tree.

ghost use Rattle.std.specs.Prelude.{◌≡◌, None, Option, Some};
ghost use Rattle.std.specs.Option.{IsSome, is_some};
ghost use Rattle.fancy_host.specs.declared.searches.Searcher.{Searcher};
ghost use Rattle.fancy_host.specs.Hosted.{compiled, group_count, groups, tree_in, tree_of};
ghost use Rattle.fancy_host.specs.Owned.{owned, searcher_coded};

use crate::outcome::FancyOutcome;
use crate::raw_box::RawBox;
use crate::searches::Searcher;
use std::alloc::Global;
use std::marker::Model;
use std::mem::replace;

/// The place of a compiled tree, or none.
#[repr(C)]
#[derive(Drop)]
pub struct Handle {
    at: *mut u8,
    alloc: Global,
    pub ghost searcher: { Option Searcher } by { searcher_coded },
}

impl Model for Handle {
    ghost also_owns = { λ h. owned h.alloc h.at h.searcher };
}

// What it owns may go to another thread.
unsafe impl Send for Handle {}

impl Handle {
    fn empty(alloc: Global) -> Handle
        ensures { result.searcher ≡ None }
    {
        Handle {
            at: std::ptr::null_mut(),
            alloc,
        }
    }

    fn of_loose(raw_box: RawBox<Searcher, Global>) -> Handle
        ensures { result.searcher ≡ Some raw_box.value }
    {
        let RawBox { at, alloc } = raw_box;
        Handle {
            at: at as *mut u8,
            alloc,
        }
    }

    fn into_loose(self) -> RawBox<Searcher, Global>
        requires { IsSome self.searcher }
        ensures { self.searcher ≡ Some result.value }
    {
        let Handle { at, alloc } = self;
        RawBox {
            at: at as *mut Searcher,
            alloc,
        }
    }
}

/// What a host holds: a compiled tree, or nothing. Memory of zeros holds nothing.
#[repr(C)]
#[derive(Drop)]
pub struct FancyProgram {
    /// Whether there is a tree.
    pub is_set: bool,
    /// How many groups it has, with group 0.
    pub groups: usize,
    pub handle: Handle,
    pub ghost agrees: { is_some handle.searcher ≡ is_set },
    pub ghost counts: { group_count (tree_of handle.searcher) ≡ groups },
}

/// A value of this type may go to another thread.
fn crosses_threads<T: Send>() {}

impl FancyProgram {
    pub fn empty(alloc: Global) -> FancyProgram
        ensures { result.handle.searcher ≡ None }
    {
        crosses_threads::<FancyProgram>();
        FancyProgram {
            is_set: false,
            groups: 0,
            handle: Handle::empty(alloc),
        }
    }

    pub fn of(searcher: Box<Searcher>) -> FancyProgram
        ensures { result.handle.searcher ≡ Some searcher.value }
    {
        FancyProgram {
            is_set: true,
            groups: searcher.tree().group_count(),
            handle: Handle::of_loose(RawBox::of(searcher)),
        }
    }

    pub fn into_searcher(self) -> Box<Searcher>
        requires { IsSome self.handle.searcher }
        ensures { self.handle.searcher ≡ Some result.value }
    {
        self.handle.into_loose().into_box()
    }

    /// What it held; it holds nothing then.
    pub fn take(&mut self, alloc: Global) -> FancyProgram
        ensures held { result.handle.searcher ≡ self.old.handle.searcher }
        ensures nothing { self.new.handle.searcher ≡ None }
    {
        replace(self, FancyProgram::empty(alloc))
    }

    /// It holds what was compiled, and says how many groups that has.
    pub fn hold(&mut self, searcher: Box<Searcher>) -> FancyOutcome
        requires { self.old.handle.searcher ≡ None }
        ensures held { self.new.handle.searcher ≡ Some searcher.value }
        ensures says { result ≡ compiled (groups (tree_in searcher.value)) }
    {
        *self = FancyProgram::of(searcher);
        FancyOutcome::compiled(self.groups)
    }

    pub fn free(self) {
        if self.is_set {
            drop(self.into_searcher());
        }
    }
}
