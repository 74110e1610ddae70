//! The lines of a plan's text.

use mig_base::read_digits;

/// What a line of a plan's text is to be, where the lines before it are right.
#[derive(Clone, Copy, PartialEq, Eq)]
pub(crate) enum LineKind {
    /// Before the first line.
    Start,
    Title,
    Count,
    Head,
    Shift,
    End,
    /// What follows the line `end`.
    Nothing,
}

/// The word at a place of a line, from 0; no bytes where it has none there.
pub(crate) fn word_at(line: &[u8], place: usize) -> &[u8] {
    line.split(|b| *b == b' ').nth(place).unwrap_or(&[])
}

/// The line with this number, if the text has one. Lines count from 1, and each ends with LF.
pub(crate) fn line_at(text: &[u8], number: u32) -> Option<&[u8]> {
    text.split(|b| *b == b'\n')
        .nth(number.checked_sub(1)? as usize)
}

/// The number that is the word at a place of a line, 0 where none is.
pub(crate) fn count_at(line: &[u8], place: usize) -> u32 {
    let number = read_digits(word_at(line, place)).unwrap_or(0);
    u32::try_from(number).unwrap_or(0)
}

/// A line of a plan's text, if it has one there. Lines and rounds count from 1; a round's head is in its round.
#[derive(Clone, Copy)]
pub(crate) struct NumberedLine<'a> {
    pub(crate) line: u32,
    pub(crate) round: u32,
    pub(crate) place: LineKind,
    pub(crate) text: Option<&'a [u8]>,
    rounds: u32,
    /// How many shifts of the round are still to come.
    shifts: u32,
}

/// Before the first line.
pub(crate) const START: NumberedLine<'static> = NumberedLine {
    line: 0,
    round: 0,
    place: LineKind::Start,
    text: None,
    rounds: 0,
    shifts: 0,
};

impl<'a> NumberedLine<'a> {
    /// The word at a place of the line, from 0.
    pub(crate) fn word(&self, place: usize) -> &'a [u8] {
        word_at(self.text.unwrap_or(&[]), place)
    }

    /// Goes on to the next line.
    fn pass(&mut self, text: Option<&'a [u8]>) {
        let line = text.unwrap_or(&[]);
        self.text = text;
        self.line = self.line.saturating_add(1);
        self.place = match self.place {
            LineKind::Start => LineKind::Title,
            LineKind::Title => LineKind::Count,
            LineKind::End | LineKind::Nothing => LineKind::Nothing,
            _ if self.shifts > 0 => LineKind::Shift,
            _ if self.round < self.rounds => LineKind::Head,
            _ => LineKind::End,
        };
        match self.place {
            LineKind::Count => self.rounds = count_at(line, 1),
            LineKind::Head => {
                self.round = self.round.saturating_add(1);
                self.shifts = count_at(line, 2);
            }
            LineKind::Shift => self.shifts = self.shifts.saturating_sub(1),
            _ => {}
        }
    }
}

/// Which lines are looked for.
#[derive(Clone, Copy)]
pub(crate) enum Want<'a> {
    /// That with this number.
    Line(u32),
    /// The head of a round.
    Head(u32),
    /// The shifts in the rounds from the first on that come before the last, whose word at a place is this one.
    Shifts(u32, u32, usize, &'a [u8]),
}

impl<'a> Want<'a> {
    fn fits(&self, step: &NumberedLine<'_>) -> bool {
        match (self, step.place) {
            (Want::Line(line), _) => step.line == *line,
            (Want::Head(round), LineKind::Head) => step.round == *round,
            (Want::Shifts(first, last, place, word), LineKind::Shift) => {
                step.round >= *first && step.round < *last && step.word(*place) == *word
            }
            _ => false,
        }
    }
}

/// The lines that are looked for: the first, the second and the last of them, and how many they are.
#[derive(Clone, Copy)]
pub(crate) struct Steps<'a> {
    pub(crate) first: Option<NumberedLine<'a>>,
    pub(crate) second: Option<NumberedLine<'a>>,
    pub(crate) last: Option<NumberedLine<'a>>,
    pub(crate) count: u32,
}

impl<'a> Steps<'a> {
    /// The first of them as text; no bytes where there is none.
    pub(crate) fn first_text(&self) -> &'a [u8] {
        self.first.unwrap_or(START).text.unwrap_or(&[])
    }

    /// Adds a line if it is looked for.
    fn note(&mut self, step: &NumberedLine<'a>, want: &Want<'_>) {
        if want.fits(step) {
            if self.count == 1 {
                self.second = Some(*step);
            }
            self.first = self.first.or(Some(*step));
            self.last = Some(*step);
            self.count = self.count.saturating_add(1);
        }
    }
}

/// Looks through a plan's text, up to the place after its last line.
pub(crate) fn look_for<'a>(text: &'a [u8], want: &Want<'_>) -> Steps<'a> {
    let mut found = Steps {
        first: None,
        second: None,
        last: None,
        count: 0,
    };
    let mut step = START;
    for line in text.split(|b| *b == b'\n') {
        step.pass(Some(line));
        found.note(&step, want);
    }
    step.pass(None);
    found.note(&step, want);
    found
}
