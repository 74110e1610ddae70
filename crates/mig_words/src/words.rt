//! The commands: a row for each form, from which the texts on standard error and the pages that list them are made, and how words are read.
ghost use Rattle.std.specs.List.{AllByRecursion};
ghost use Rattle.std.specs.Prelude.{◌≡◌, ◌≢◌, ◌↔◌, ◌∷◌, [], IsTrue, MatchOption, codes, length, map};
ghost use Rattle.mig_words.specs.Commands.{form_of, names_in};
ghost use Rattle.mig_words.specs.Words.{DiffersFrom, Form, IsFileWord, IsListed, Plan, PlanTight, WritesApart, four_and, texts};

use crate::case_words::over_three_numbers;
use mig_base::Name;

/// A command in its listed form.
pub struct CommandRow {
    /// The command's own word.
    pub word: &'static str,
    /// It, and what the words after it stand for.
    pub form: &'static str,
    /// What the words after it stand for, in their order.
    pub roles: &'static [&'static str],
    /// Those of them that name a file which the command only saves: such a word stands alone.
    pub saved: &'static [&'static str],
    /// What the command does.
    pub does: &'static str,
}

/// The words of a row up to `=>` are read, and those after it only saved.
macro_rules! rows {
    ($($word:literal $($role:ident)* => $($saved:ident)*: $does:literal;)*) => {
        [$(CommandRow {
            word: $word,
            form: concat!($word $(, " ", stringify!($role))* $(, " ", stringify!($saved))*),
            roles: &[$(stringify!($role),)* $(stringify!($saved),)*],
            saved: &[$(stringify!($saved),)*],
            does: $does,
        },)*]
    };
}

/// The commands in the order in which they are listed.
pub static ROWS: [CommandRow; 17] = rows! {
    "plan" DISKS NOW NEXT => PLAN CERT: "plan the moves from NOW to NEXT, and save PLAN and CERT";
    "check" DISKS NOW NEXT PLAN CERT =>: "judge a plan and its certificate";
    "after" DISKS NOW NEXT PLAN =>: "print where the items are once the plan is carried out";
    "fill" DISKS NOW =>: "write a made item to each spot of NOW";
    "audit" DISKS NOW =>: "say of each item whether it is at its spot of NOW";
    "move" DISKS NOW NEXT PLAN =>: "carry the plan out";
    "resume" DISKS NOW NEXT PLAN =>: "carry out what a stopped move left";
    "halt" DISKS NOW NEXT PLAN => LAYOUT: "close the plan where it stands, and save where the items are there";
    "drill" DISKS NOW NEXT PLAN =>: "try each stop of the plan on stores in memory";
    "live" DISKS NOW NEXT PLAN SCRIPT =>: "carry the plan out step by step, and read items in between, as SCRIPT says";
    "drain" DISKS NOW NAME => NEXT: "find next disks that empty the disk NAME, and save them in NEXT";
    "rehearse" N PERPAIR LIMIT =>: "plan a case of N disks with this limit and PERPAIR items from each to each other";
    "plan-tight" DISKS NOW NEXT => PLAN: "plan one item at a time where disks lack room, and save PLAN";
    "after-tight" DISKS NOW NEXT PLAN =>: "as after, but no disk is asked for room";
    "move-tight" DISKS NOW NEXT PLAN =>: "as move, but no disk is asked for room";
    "resume-tight" DISKS NOW NEXT PLAN =>: "as resume, but no disk is asked for room";
    "halt-tight" DISKS NOW NEXT PLAN => LAYOUT: "as halt, but no disk is asked for room";
};

/// The words that name the three files, and that of a plan.
#[derive(Clone, Copy)]
pub struct PlanFiles<'a> {
    pub disks: &'a str,
    pub now: &'a str,
    pub next: &'a str,
    pub plan: &'a str,
}

/// How the three files of an input are read.
#[derive(Clone, Copy)]
pub enum Reader {
    /// Each disk must have room for what comes to it.
    Roomy,
    /// Nobody asks whether a disk has room.
    Tight,
}

/// The words that name the files of a task, and how its input is read.
#[derive(Clone, Copy)]
pub struct TaskFiles<'a> {
    pub reader: Reader,
    pub files: PlanFiles<'a>,
}

/// The words of a rehearsal after its name, each the digits of a number.
#[derive(Clone, Copy)]
pub struct CaseWords<'a> {
    pub disks: &'a str,
    pub per_pair: &'a str,
    pub limit: &'a str,
}

/// A command, with the words that name its files, or with its numbers.
#[derive(Clone, Copy)]
pub enum Command<'a> {
    Plan {
        files: PlanFiles<'a>,
        cert: &'a str,
    },
    Check {
        files: PlanFiles<'a>,
        cert: &'a str,
    },
    PlanTight {
        files: PlanFiles<'a>,
    },
    After {
        task: TaskFiles<'a>,
    },
    Fill {
        disks: &'a str,
        now: &'a str,
    },
    Audit {
        disks: &'a str,
        now: &'a str,
    },
    Rehearse {
        case: CaseWords<'a>,
    },
    Move {
        task: TaskFiles<'a>,
    },
    Resume {
        task: TaskFiles<'a>,
    },
    Halt {
        task: TaskFiles<'a>,
        layout: &'a str,
    },
    Drill {
        files: PlanFiles<'a>,
    },
    Live {
        files: PlanFiles<'a>,
        script: &'a str,
    },
    Drain {
        disks: &'a str,
        now: &'a str,
        disk: Name,
        next: &'a str,
    },
}

/// Whether a word may name a file.
fn is_file_word(word: &str) -> bool
    ensures { IsTrue result ↔ IsFileWord word.now }
{
    let bytes = word.as_bytes();
    !bytes.is_empty()
        && bytes.len() <= 255
        && !bytes.ends_with(b".disk")
        && !bytes.ends_with(b".mig")
}

/// Whether each word may name a file.
fn are_file_words(words: &[&str]) -> bool
    ensures { IsTrue result ↔ AllByRecursion IsFileWord (map (λ w. w.now) words.now) }
{
    for word in words {
        if !is_file_word(word) {
            return false;
        }
    }
    true
}

/// Whether the word is none of the others.
fn differs_from(word: &str, others: &[&str]) -> bool
    ensures { IsTrue result ↔ DiffersFrom word.now (map (λ w. w.now) others.now) }
{
    for other in others {
        if *other == word {
            return false;
        }
    }
    true
}

/// Whether the two files that `plan` writes differ from all its others.
fn writes_apart(files: PlanFiles<'_>, cert: &str) -> bool
    ensures { IsTrue result ↔ WritesApart (Plan (names_in files.entry) cert.now) }
{
    differs_from(files.plan, &[files.disks, files.now, files.next, cert])
        && differs_from(cert, &[files.disks, files.now, files.next])
}

/// Whether the file that `plan-tight` writes differs from all its others.
fn plan_apart(files: PlanFiles<'_>) -> bool
    ensures { IsTrue result ↔ WritesApart (PlanTight (names_in files.entry)) }
{
    differs_from(files.plan, &[files.disks, files.now, files.next])
}

/// Whether the file that `halt` writes differs from all its others.
fn saves_apart(files: PlanFiles<'_>, layout: &str) -> bool
    ensures { IsTrue result ↔ DiffersFrom layout.now (four_and (names_in files.entry) []) }
{
    differs_from(layout, &[files.disks, files.now, files.next, files.plan])
}

/// The command over two files that three words are, if they are one in its listed form.
fn over_two_files<'a>(command: &str, disks: &'a str, now: &'a str) -> Option<Command<'a>>
    ensures { MatchOption result
        ((form : Form) → IsListed (command.now ∷ disks.now ∷ now.now ∷ []) form → ⊥)
        (λ read. IsListed (command.now ∷ disks.now ∷ now.now ∷ []) (form_of read)) }
{
    if !are_file_words(&[disks, now]) {
        return None;
    }
    match command {
        "fill" => Some(Command::Fill { disks, now }),
        "audit" => Some(Command::Audit { disks, now }),
        _ => None,
    }
}

/// The command `drain` with these words after it, if they are its in its listed form.
fn over_a_disk<'a>(disks: &'a str, now: &'a str, disk: &str, next: &'a str) -> Option<Command<'a>>
    ensures { MatchOption result
        ((form : Form) → IsListed (codes "drain" ∷ disks.now ∷ now.now ∷ disk.now ∷ next.now ∷ []) form → ⊥)
        (λ read. IsListed (codes "drain" ∷ disks.now ∷ now.now ∷ disk.now ∷ next.now ∷ []) (form_of read)) }
{
    if !are_file_words(&[disks, now, next]) || !differs_from(next, &[disks, now]) {
        return None;
    }
    Some(Command::Drain {
        disks,
        now,
        disk: Name::read(disk.as_bytes())?,
        next,
    })
}

/// The command over four files that five words are, if they are one in its listed form.
fn over_four_files<'a>(command: &str, files: PlanFiles<'a>) -> Option<Command<'a>>
    requires { command.now ≢ codes "drain" }
    ensures { MatchOption result
        ((form : Form) → IsListed (command.now ∷ four_and (names_in files.entry) []) form → ⊥)
        (λ read. IsListed (command.now ∷ four_and (names_in files.entry) []) (form_of read)) }
{
    if !are_file_words(&[files.disks, files.now, files.next, files.plan]) {
        return None;
    }
    let roomy = TaskFiles {
        reader: Reader::Roomy,
        files,
    };
    let tight = TaskFiles {
        reader: Reader::Tight,
        files,
    };
    match command {
        "plan-tight" if plan_apart(files) => Some(Command::PlanTight { files }),
        "after" => Some(Command::After { task: roomy }),
        "after-tight" => Some(Command::After { task: tight }),
        "move" => Some(Command::Move { task: roomy }),
        "move-tight" => Some(Command::Move { task: tight }),
        "resume" => Some(Command::Resume { task: roomy }),
        "resume-tight" => Some(Command::Resume { task: tight }),
        "drill" => Some(Command::Drill { files }),
        _ => None,
    }
}

/// The command that five words are, if they are one in its listed form: the words after the first two files name two more,
/// or a disk and a file.
fn over_four_words<'a>(
    command: &str,
    disks: &'a str,
    now: &'a str,
    third: &'a str,
    fourth: &'a str,
) -> Option<Command<'a>>
    ensures { MatchOption result
        ((form : Form) → IsListed (command.now ∷ disks.now ∷ now.now ∷ third.now ∷ fourth.now ∷ []) form → ⊥)
        (λ read. IsListed (command.now ∷ disks.now ∷ now.now ∷ third.now ∷ fourth.now ∷ []) (form_of read)) }
{
    match command {
        "drain" => over_a_disk(disks, now, third, fourth),
        _ => {
            let files = PlanFiles {
                disks,
                now,
                next: third,
                plan: fourth,
            };
            over_four_files(command, files)
        }
    }
}

/// The command over five files that six words are, if they are one in its listed form.
fn over_five_files<'a>(command: &str, files: PlanFiles<'a>, last: &'a str) -> Option<Command<'a>>
    ensures { MatchOption result
        ((form : Form) → IsListed (command.now ∷ four_and (names_in files.entry) (last.now ∷ [])) form → ⊥)
        (λ read. IsListed (command.now ∷ four_and (names_in files.entry) (last.now ∷ [])) (form_of read)) }
{
    if !are_file_words(&[files.disks, files.now, files.next, files.plan, last]) {
        return None;
    }
    match command {
        "plan" if writes_apart(files, last) => Some(Command::Plan { files, cert: last }),
        "check" => Some(Command::Check { files, cert: last }),
        "live" => Some(Command::Live {
            files,
            script: last,
        }),
        "halt" if saves_apart(files, last) => Some(Command::Halt {
            task: TaskFiles {
                reader: Reader::Roomy,
                files,
            },
            layout: last,
        }),
        "halt-tight" if saves_apart(files, last) => Some(Command::Halt {
            task: TaskFiles {
                reader: Reader::Tight,
                files,
            },
            layout: last,
        }),
        _ => None,
    }
}

/// The command that the words are, if they are one in its listed form.
pub fn read_words(words: &[String]) -> Option<Command<'_>>
    ensures { MatchOption result ((form : Form) → IsListed (texts words.now) form → ⊥) (λ command. IsListed (texts words.now) (form_of command)) }
{
    if words.len() < 3 || words.len() > 6 {
        return None;
    }
    match words {
        [command, disks, now] => over_two_files(command.as_str(), disks.as_str(), now.as_str()),
        [command, disks, per_pair, limit] => {
            let case = CaseWords {
                disks: disks.as_str(),
                per_pair: per_pair.as_str(),
                limit: limit.as_str(),
            };
            over_three_numbers(command.as_str(), case)
        }
        [command, disks, now, third, fourth] => over_four_words(
            command.as_str(),
            disks.as_str(),
            now.as_str(),
            third.as_str(),
            fourth.as_str(),
        ),
        [command, disks, now, next, plan, last] => {
            let files = PlanFiles {
                disks: disks.as_str(),
                now: now.as_str(),
                next: next.as_str(),
                plan: plan.as_str(),
            };
            over_five_files(command.as_str(), files, last.as_str())
        }
        _ => None,
    }
}
