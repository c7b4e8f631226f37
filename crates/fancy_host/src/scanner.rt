//! The handle by which a host holds patterns that are searched for together.

ghost use Rattle.std.specs.Prelude.{◌≡◌, IfErr, IfOk, None, Option, Some};
ghost use Rattle.std.specs.Option.{IsSome, is_some};
ghost use Rattle.fancy_scanner.specs.declared.scanner.TreeScanner.{TreeScanner};
ghost use Rattle.fancy_host.specs.Owned.{owned_scanner, scanner_coded};

use crate::raw_box::RawBox;
use fancy_scanner::scanner::TreeScanner;
use std::alloc::{AllocError, Global};
use std::marker::Model;
use std::mem::replace;

/// The place of a scanner, or none.
#[repr(C)]
#[derive(Drop)]
pub struct ScannerHandle {
    at: *mut u8,
    alloc: Global,
    pub ghost scanner: { Option TreeScanner } by { scanner_coded },
}

impl Model for ScannerHandle {
    ghost also_owns = { λ h. owned_scanner h.alloc h.at h.scanner };
}

// What it owns may go to another thread.
unsafe impl Send for ScannerHandle {}

impl ScannerHandle {
    fn empty(alloc: Global) -> ScannerHandle
        ensures { result.scanner ≡ None }
    {
        ScannerHandle {
            at: std::ptr::null_mut(),
            alloc,
        }
    }

    fn of_loose(raw_box: RawBox<TreeScanner, Global>) -> ScannerHandle
        ensures { result.scanner ≡ Some raw_box.value }
    {
        let RawBox { at, alloc } = raw_box;
        ScannerHandle {
            at: at as *mut u8,
            alloc,
        }
    }

    fn into_loose(self) -> RawBox<TreeScanner, Global>
        requires { IsSome self.scanner }
        ensures { self.scanner ≡ Some result.value }
    {
        let ScannerHandle { at, alloc } = self;
        RawBox {
            at: at as *mut TreeScanner,
            alloc,
        }
    }
}

/// What a host holds: a scanner, or nothing, which has no patterns. Memory of zeros holds nothing.
#[repr(C)]
#[derive(Drop)]
pub struct FancyScanner {
    /// Whether there is a scanner.
    pub is_set: bool,
    pub handle: ScannerHandle,
    pub ghost agrees: { is_some handle.scanner ≡ is_set },
}

/// A value of this type may go to another thread.
fn crosses_threads<T: Send>() {}

impl FancyScanner {
    ghost use Rattle.fancy_host.specs.Scanned.{HoldsSame};

    pub fn empty(alloc: Global) -> FancyScanner
        ensures { result.handle.scanner ≡ None }
    {
        crosses_threads::<FancyScanner>();
        FancyScanner {
            is_set: false,
            handle: ScannerHandle::empty(alloc),
        }
    }

    pub fn of(scanner: Box<TreeScanner>) -> FancyScanner
        ensures { result.handle.scanner ≡ Some scanner.value }
    {
        FancyScanner {
            is_set: true,
            handle: ScannerHandle::of_loose(RawBox::of(scanner)),
        }
    }

    pub fn into_scanner(self) -> Box<TreeScanner>
        requires { IsSome self.handle.scanner }
        ensures { self.handle.scanner ≡ Some result.value }
    {
        self.handle.into_loose().into_box()
    }

    /// What it held; it holds nothing then.
    pub fn take(&mut self, alloc: Global) -> FancyScanner
        ensures held { result.handle.scanner ≡ self.old.handle.scanner }
        ensures nothing { self.new.handle.scanner ≡ None }
    {
        replace(self, FancyScanner::empty(alloc))
    }

    /// The scanner that it held, or a new one where it held nothing. After an error it holds what it held.
    pub fn take_or_new(&mut self, alloc: Global) -> Result<Box<TreeScanner>, AllocError>
        ensures held { IfOk result (λ scanner.
            HoldsSame self.old.handle.scanner (Some scanner.value)) }
        ensures kept { IfErr result (λ _. self.new.handle.scanner ≡ self.old.handle.scanner) }
    {
        if self.is_set {
            Ok(self.take(alloc).into_scanner())
        } else {
            Ok(Box::new(alloc, TreeScanner::new(alloc))?)
        }
    }

    pub fn free(self) {
        if self.is_set {
            drop(self.into_scanner());
        }
    }
}
