//! What is kept of a run beside its owner and slots: what was printed, and the holds that were granted.
use crate::told::told;
use nc_alert::Alert;
use nc_journal::{Event, line_of};
use nc_owner::Done;
use nc_slots::PlainHold;
use nc_types::NoMemory;
use nc_types::text::put_decimal;
use std::alloc::Global;

/// What is printed, and the holds of a run of owner 0, whose alerts go to two workers.
///
/// `asked` numbers the publishes and questions for information, `looks` the looks and edges, and `made` the alerts to each worker.
#[derive(Drop)]
pub struct Book {
    pub alloc: Global,
    pub text: Vec<u8>,
    pub is_silent: bool,
    pub holds: Vec<(u64, PlainHold)>,
    pub asked: u64,
    pub looks: u64,
    made: [u64; 2],
}

impl Book {
    pub fn new(alloc: Global) -> Book {
        Book {
            alloc,
            text: Vec::new(alloc),
            is_silent: false,
            holds: Vec::new(alloc),
            asked: 0,
            looks: 0,
            made: [0; 2],
        }
    }

    /// A new run begins, and what was printed stays.
    pub fn begin(&mut self) {
        self.holds = Vec::new(self.alloc);
        self.asked = 0;
        self.looks = 0;
        self.made = [0; 2];
    }

    /// The number of the next publish or question for information.
    pub fn next_asked(&mut self) -> u64 {
        let number = self.asked;
        self.asked = number.saturating_add(1);
        number
    }

    /// The number of the next look or edge.
    pub fn next_look(&mut self) -> u64 {
        let number = self.looks;
        self.looks = number.saturating_add(1);
        number
    }

    /// The number of the next alert to a worker.
    fn next_made(&mut self, to: u8) -> u64 {
        let Some(made) = self.made.get_mut(usize::from(to)) else {
            return u64::MAX;
        };
        let number = *made;
        *made = number.saturating_add(1);
        number
    }

    /// Prints a line, where steps are printed.
    pub fn print(&mut self, line: &[u8]) -> Result<(), NoMemory> {
        if !self.is_silent {
            self.text.extend_from_slice(line)?;
            self.text.push(b'\n')?;
        }
        Ok(())
    }

    /// Prints a word, which may be empty, and a number behind it.
    pub fn print_number(&mut self, word: &[u8], number: u64) -> Result<(), NoMemory> {
        self.text.extend_from_slice(word)?;
        put_decimal(&mut self.text, number)?;
        self.text.push(b'\n')?;
        Ok(())
    }

    /// Prints an event, which is dropped.
    pub fn print_event(&mut self, event: Event) -> Result<(), NoMemory> {
        let line = line_of(self.alloc, &event)?;
        drop(event);
        self.print(line.as_slice())
    }

    /// Prints an alert, and keeps the hold that it carries.
    fn print_alert(&mut self, to: u8, alert: Alert<PlainHold>) -> Result<(), NoMemory> {
        let Some((a, hold)) = told(alert) else {
            return self.print(b"an alert that no owner makes here");
        };
        if let Some(hold) = hold {
            self.holds.push(hold)?;
        }
        let n = self.next_made(to);
        let made = Event::Made {
            w: 0,
            to: u64::from(to),
            n,
            a,
        };
        self.print_event(made)
    }

    /// Prints what a call did: each alert with a hold directly behind its grant, the others last.
    pub fn print_done(&mut self, done: Done<PlainHold>) -> Result<(), NoMemory> {
        let mut alerts = done.alerts.into_vec().into_iter();
        for event in done.events.events.into_vec() {
            let is_grant = is_grant(&event);
            self.print_event(event)?;
            if is_grant && let Some(out) = alerts.next() {
                self.print_alert(out.to, out.alert)?;
            }
        }
        for out in alerts {
            self.print_alert(out.to, out.alert)?;
        }
        Ok(())
    }
}

fn is_grant(event: &Event) -> bool {
    match event {
        Event::Granted { .. } => true,
        _ => false,
    }
}
