// What the program prints, and the numbers that it takes out of outcomes.
use dispatcher::ends::{Dispatched, End};
use std::io;
use store::{Answer, Outcome};

// The offset that GetFilePointer answered; 0 where it was refused.
pub fn offset_in(o: Outcome) -> u16 {
    match o {
        Ok(Answer::Offset(n)) => n,
        _ => 0,
    }
}

// Ends a line: with this text, or with the refusal's number.
pub fn end_line(rt: &impl Print, text: &str, o: Outcome) -> io::Result<()> {
    match o {
        Ok(_) => println!(rt; "{text}"),
        Err(r) => println!(rt; "refused with {}", r.number()),
    }
}

// How a script ended, as an outcome.
fn outcome_of(end: End) -> Outcome {
    match end {
        End::Unfinished | End::Granted => Ok(Answer::Done),
        End::Failed(r) => Err(r),
    }
}

// What the dispatcher answered; and where it ran, how the three scripts ended, and the number of commits.
pub fn tell_ends(rt: &impl Print, d: Dispatched) -> io::Result<()> {
    print!(rt; "dispatcher: ")?;
    end_line(rt, "done", d.outcome)?;
    if d.outcome.is_err() {
        return Ok(());
    }
    for (k, ended) in d.ends.iter().take(3).enumerate() {
        print!(rt; "script {k}: ")?;
        end_line(rt, "granted", outcome_of(ended.end))?;
    }
    println!(rt; "commits: {}", d.commits)
}

// Where the log ends.
pub fn tell_end_of_log(rt: &impl Print, n: u16) -> io::Result<()> {
    println!(rt; "the log ends at {n}")
}
