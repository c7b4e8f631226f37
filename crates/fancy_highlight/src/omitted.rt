//! Reports of rules that are left out of a text from some place on.

ghost use Rattle.std.specs.Prelude.{◌≡◌, IsTrue};
ghost use Rattle.fancy_highlight.specs.LeftOut.{AreReported, are_once, are_placed, is_reported};

use crate::left_out::LeftOut;
use fancy_characters::places::is_place;
use std::alloc::{AllocError, Global};

/// The reports of the rules that are left out of a text, each once.
#[derive(Drop)]
pub(crate) struct Reports<'t> {
    pub(crate) text: &'t str,
    reports: Vec<LeftOut>,
    ghost placed: { IsTrue (are_placed text.now reports.items) },
    ghost once: { IsTrue (are_once reports.items) },
}

impl<'t> Reports<'t> {
    pub(crate) fn new(alloc: Global, text: &'t str) -> Reports<'t>
        ensures { result.text.now ≡ text.now }
    {
        Reports {
            text,
            reports: Vec::new(alloc),
        }
    }

    /// The rule with this number is reported.
    fn has(&self, rule: usize) -> bool
        ensures { result ≡ is_reported self.now.reports.items rule }
    {
        self.reports.iter().any(|report| report.rule == rule)
    }

    /// Adds a report of a rule that is not reported yet.
    fn push(&mut self, report: LeftOut) -> Result<(), AllocError>
        ensures { self.new.text.now ≡ self.old.text.now }
    {
        if is_place(self.text.as_bytes(), report.at) && !self.has(report.rule) {
            self.reports.push(report)?;
        }
        Ok(())
    }

    /// Adds reports whose bytes count from this one of the text on.
    pub(crate) fn push_all(&mut self, start: usize, reports: Vec<LeftOut>) -> Result<(), AllocError>
        ensures { self.new.text.now ≡ self.old.text.now }
    {
        for report in reports {
            let at = start.saturating_add(report.at);
            self.push(LeftOut { at, ..report })?;
        }
        Ok(())
    }

    /// The reports.
    pub(crate) fn into_reports(self) -> Vec<LeftOut>
        ensures { AreReported self.entry.text.now result.items }
    {
        self.reports
    }
}
