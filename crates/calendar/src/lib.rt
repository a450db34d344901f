// The calendar of the cluster: its reader, its shut slots, the limit of a flow.
#![tactic(auto)]

ghost use Rattle.std.specs.Prelude.{◌≡◌, ℕ, ◌+◌, ◌-◌, ◌*◌, ◌<◌, ◌≤◌, min, not, ◌&&◌, List, length, replicate, ◌||◌, ltb, leb, if◌then◌else◌, IfOk};
ghost use Rattle.rules.specs.Verdicts.{Pass};
ghost use Rattle.rules.specs.Faults.{verdict_by};
ghost use Rattle.rules.specs.Limits.{most_deadline, most_reopening, slots, work_bytes};
ghost use Rattle.rules.specs.Calendar.{in_window, is_open, open_before, slot_after, window_at, window_fault, calendar_fault, CalendarInRange};
ghost use Rattle.calendar.specs.Windows.{window_in, windows_in};
ghost use Rattle.calendar.specs.Held.{held_windows, Held};
ghost use Rattle.calendar.specs.Layout.{LayoutRead};
ghost use Rattle.calendar.specs.Area.{area_holding, open_by};

mod maintenance;

use book::bytes::Field;
pub use maintenance::{Calendar, MOST_WINDOWS, Window};
use rules::{Fault, Refusal};

// The bytes before the windows, and those of each window.
const HEAD_BYTES: usize = 6;

const WINDOW_BYTES: usize = 4;

// The version of a calendar.
const VERSION: u8 = 1;

// The last slot at which a window may reopen.
const LAST_REOPENING: u16 = 4096;

impl Window {
    // Window k of a calendar's bytes.
    #[tactic(auto, unfolding(rules::specs::Calendar::window_at))]
    pub fn read(bytes: &[u8], k: usize) -> Self
        requires { 6 + 4 * k + 4 ≤ length bytes.now }
        ensures { window_in result ≡ window_at bytes.now k }
    {
        let at = HEAD_BYTES + WINDOW_BYTES * k;
        Self {
            shut: u16::read(bytes, at),
            reopening: u16::read(bytes, at + 2),
        }
    }

    // Whether it breaks the rules of a window that may begin at slot `free` or later.
    pub fn has_fault(self, free: u16) -> bool
        ensures { result ≡ (leb self.reopening self.shut || ltb self.shut free || ltb most_reopening self.reopening) }
    {
        self.reopening <= self.shut || self.shut < free || LAST_REOPENING < self.reopening
    }

    // How many of its slots stand before a slot.
    pub fn shut_before(self, slot: u16) -> usize
        ensures { result ≡ min self.reopening slot - self.shut }
    {
        usize::from(self.reopening.min(slot).saturating_sub(self.shut))
    }

    // The limit with this window more: one that shuts before it moves it on by the window's slots.
    pub fn past(self, limit: usize) -> usize
        requires { (limit ≤ slots) × (self.shut < self.reopening) }
        ensures { result ≡ (if ltb self.shut limit then limit + (self.reopening - self.shut) else limit) }
    {
        if usize::from(self.shut) < limit {
            limit + usize::from(self.reopening - self.shut)
        } else {
            limit
        }
    }

    // A value written into the pair of each of its slots. The work area stays a slice with a clause on its length; book's
    // `WORK_BYTES` says why.
    pub fn set(self, work: &mut [u8], value: u16)
        requires { (self.shut ≤ self.reopening) × (self.reopening ≤ slots) × (work_bytes ≤ length work.old) }
        ensures { (used : ℕ → ℕ) (bytes : List ℕ) → work.old ≡ area_holding slots used bytes →
            work.new ≡ area_holding slots (λ t. if in_window (window_in self) t then value else used t) bytes }
    {
        for slot in self.shut..self.reopening {
            value.write(work, 2 * usize::from(slot));
        }
    }

    // The flag of each of its slots set.
    pub fn flag(self, flags: &mut [u8])
        requires { (self.shut ≤ self.reopening) × (self.reopening ≤ length flags.old) }
        ensures { (t : ℕ) → open_by flags.new t ≡ (open_by flags.old t && not (in_window (window_in self) t)) }
    {
        flags[usize::from(self.shut)..usize::from(self.reopening)].fill(1);
    }
}

// How many windows stand in the bytes of a calendar; 24 where they break its layout.
#[tactic(auto, unfolding(rules::specs::Calendar::calendar_fault))]
pub fn window_count(bytes: &[u8]) -> Result<usize, Refusal>
    ensures { LayoutRead bytes.now result }
{
    let refusal = Fault::Calendar.nowhere();
    if bytes.len() < HEAD_BYTES || u32::read(bytes, 0) as usize != bytes.len() {
        return Err(refusal);
    }
    if bytes[4] != VERSION {
        return Err(refusal);
    }
    let count = usize::from(bytes[5]);
    if MOST_WINDOWS < count || bytes.len() != HEAD_BYTES + WINDOW_BYTES * count {
        return Err(refusal);
    }
    Ok(count)
}

impl Calendar {
    // The calendar in these bytes; 24 where they break its layout or one of its windows breaks its rules.
    pub fn read(bytes: &[u8]) -> Result<Self, Refusal>
        ensures verdict { verdict_by result ≡ calendar_fault bytes.now }
        ensures held { IfOk result (Held bytes.now) }
    {
        let count = window_count(bytes)?;
        let mut windows = [Window::default(); MOST_WINDOWS];
        // the first slot at which the next window may begin
        let mut free = 0;
        for k in 0..count {
            let window = Window::read(bytes, k);
            if window.has_fault(free) {
                return Err(Fault::Calendar.nowhere());
            }
            windows[k] = window;
            free = window.reopening + 1;
        }
        Ok(Self { windows, count })
    }

    // How many open slots stand before a slot.
    pub fn open_before(&self, slot: u16) -> usize
        ensures { result ≡ open_before (held_windows self.now) slot }
    {
        let mut open = usize::from(slot);
        for window in &self.windows[..self.count] {
            open -= window.shut_before(slot);
        }
        open
    }

    // The slot at which twice the open slots before a deadline have passed.
    pub fn limit_of(&self, deadline: u16) -> usize
        requires { deadline ≤ most_deadline }
        ensures { (result ≡ slot_after (held_windows self.now) (2 * open_before (held_windows self.now) deadline)) × (result ≤ slots) }
    {
        let mut limit = 2 * self.open_before(deadline);
        for window in &self.windows[..self.count] {
            limit = window.past(limit);
        }
        limit
    }

    // A value written into the pair of each shut slot.
    pub fn set_shut(&self, work: &mut [u8], value: u16)
        requires { work_bytes ≤ length work.old }
        ensures { (used : ℕ → ℕ) (bytes : List ℕ) → work.old ≡ area_holding slots used bytes →
            work.new ≡ area_holding slots (λ t. if is_open (held_windows self.now) t then used t else value) bytes }
    {
        for window in &self.windows[..self.count] {
            window.set(work, value);
        }
    }

    // The flag of each shut slot set, among flags that are all 0.
    pub fn set_flags(&self, flags: &mut [u8])
        requires { flags.old ≡ replicate most_reopening 0 }
        ensures { ((t : ℕ) → open_by flags.new t ≡ is_open (held_windows self.now) t) × (length flags.new ≡ most_reopening) }
    {
        for window in &self.windows[..self.count] {
            window.flag(flags);
        }
    }
}

// The calendar in these bytes, which pass.
pub fn calendar_of(calendar: &[u8]) -> Calendar
    requires { calendar_fault calendar.now ≡ Pass }
    ensures { Held calendar.now result }
{
    Calendar::read(calendar).unwrap()
}

// Whether window k of a calendar's bytes breaks its rules, by itself or beside the one before it.
pub fn window_fault(calendar: &[u8], k: usize) -> bool
    requires { 6 + 4 * k + 4 ≤ length calendar.now }
    ensures { result ≡ window_fault calendar.now k }
{
    let window = Window::read(calendar, k);
    if window.has_fault(0) {
        return true;
    }
    0 < k && window.shut <= Window::read(calendar, k - 1).reopening
}

// Whether a slot is open, by its flag; past the last flag every slot is.
// The flags are bytes, not truth values: of any bytes, the promise is that each one but 1 means open.
pub fn is_open(flags: &[u8], slot: usize) -> bool
    ensures { result ≡ open_by flags.now slot }
{
    flags.len() <= slot || flags[slot] != 1
}
