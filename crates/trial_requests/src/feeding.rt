// Lines that a desk answers, beside a plain server that answers the same.
use crate::answering::{LIMIT, checked, fed, fed_within, held_text};
use crate::book_cells::is_book;
use crate::drawing::{add_closing, add_line};
use crate::failing::FailingKeeper;
use crate::plain_answers::{add_answer, add_answers};
use crate::plain_server::PlainServer;
use crate::schedules::{schedule, troubles_of};
use crate::story::Story;
use crate::tally::Tally;
use rv_base::Memory;
use rv_keeper::{Keeper, MemoryKeeper};
use std::alloc::Global;
use trial_stage::Part::{Number, Text};
use trial_stage::{
    append_parts, count_lines, fifth_number, first_word, four_numbers, joined, number_in,
};

// What a desk answered, or how it differs from what the plain server answers.
fn compared<'x>(alloc: Global, told: &'x str, plain: &'x str) -> Result<String, Memory> {
    if told == plain {
        return joined(alloc, &[Text(plain)]);
    }
    joined(
        alloc,
        &[
            Text("differs:\n"),
            Text(told),
            Text("-- the plain server:\n"),
            Text(plain),
        ],
    )
}

// The limit of a word, or none.
fn limit_in(word: &str) -> u32 {
    match number_in(word) {
        Some(limit) => limit.min(u64::from(LIMIT)) as u32,
        None => LIMIT,
    }
}

/// `feed`: what comes of lines where nothing was kept before: the same from a desk and from the plain server. `feed LIMIT CALLS`: the same
/// with a book of so many entries at most, over a keeper with these troubles, as `before1,generation1`.
pub fn told_of_lines(alloc: Global, lines: &str, words: &str) -> Result<Option<String>, Memory> {
    let (limit, calls) = first_word(words);
    let limit = limit_in(limit);
    let memory = MemoryKeeper::new(alloc, Vec::new(alloc));
    let keeper = FailingKeeper::new(memory, troubles_of(alloc, calls)?);
    let (told, _keeper) = fed_within(alloc, keeper, limit, lines);
    let told = told?;
    let mut plain = PlainServer::limited(alloc, limit, troubles_of(alloc, calls)?);
    let mut answers = String::new(alloc);
    add_answers(alloc, &mut answers, &mut plain, lines)?;
    Ok(Some(compared(alloc, told.as_str(), answers.as_str())?))
}

// The kinds of answers that are counted, and how each of them begins.
static FRONTS: [(&str, &str); 6] = [
    ("pushed", "200 {}"),
    ("pulled", "200 {\"cookie\""),
    ("retired", "200 {\"retired\""),
    ("refused", "40"),
    ("keeper", "503 {\"error\":\"keeper\"}"),
    ("memory", "503 {\"error\":\"memory\"}"),
];

/// What lines are drawn, over what keeper. 0 is never.
#[derive(Clone, Copy)]
pub struct Plan {
    /// What they are drawn by.
    pub seed: u64,
    /// How many lines there are.
    pub many: u64,
    /// Of how many calls of each kind one fails.
    pub fails: usize,
    /// In the place of one of how many lines a stop comes.
    pub stops: usize,
    /// In the place of one of how many lines the book is closed.
    pub closes: usize,
}

/// The plan of words, where they are one.
pub fn plan_of(words: &str) -> Option<Plan> {
    let [seed, many, fails, stops] = four_numbers(words)?;
    Some(Plan {
        seed,
        many,
        fails: fails as usize,
        stops: stops as usize,
        closes: fifth_number(words) as usize,
    })
}

/// Lines that were drawn, and what the plain server answered.
#[derive(Drop)]
pub struct Drawn {
    lines: String,
    answers: String,
    tally: Tally,
    plain: PlainServer,
}

// Adds a line that is drawn, a stop, or one that closes the book.
fn add_drawn(
    alloc: Global,
    text: &mut String,
    plain: &PlainServer,
    story: &mut Story,
    plan: Plan,
) -> Result<(), Memory> {
    if plan.stops > 0 && story.draws.once_in(plan.stops) {
        append_parts(alloc, text, &[Text("{\"stop\":true}\n")])
    } else if plan.closes > 0 && story.draws.once_in(plan.closes) {
        add_closing(alloc, text, plain.book(), story)
    } else {
        add_line(alloc, text, plain, story)
    }
}

// Draws one more line.
fn draw(alloc: Global, drawn: &mut Drawn, story: &mut Story, plan: Plan) -> Result<(), Memory> {
    let mut line = String::new(alloc);
    add_drawn(alloc, &mut line, &drawn.plain, story, plan)?;
    let text = line.as_str().trim_end();
    let mut answer = String::new(alloc);
    add_answer(alloc, &mut answer, &mut drawn.plain, text)?;
    drawn
        .tally
        .note(text, answer.as_str(), drawn.plain.book().page().at);
    drawn.lines.push_str(line.as_str())?;
    drawn.answers.push_str(answer.as_str())?;
    Ok(())
}

/// Draws the lines of a plan.
pub fn draw_all(alloc: Global, plan: Plan) -> Result<Drawn, Memory> {
    let schedule = schedule(alloc, plan.seed, plan.fails)?;
    let mut drawn = Drawn {
        lines: String::new(alloc),
        answers: String::new(alloc),
        tally: Tally::new(),
        plain: PlainServer::new(alloc, schedule),
    };
    let mut story = Story::new(alloc, plan.seed);
    for _ in 0..plan.many {
        draw(alloc, &mut drawn, &mut story, plan)?;
    }
    Ok(drawn)
}

// How many of the answers begin so, under a name.
fn add_count(
    alloc: Global,
    text: &mut String,
    answers: &str,
    name: &str,
    front: &str,
) -> Result<(), Memory> {
    let many = count_lines(answers, front);
    append_parts(
        alloc,
        text,
        &[Text(name), Text(" "), Number(many), Text(", ")],
    )
}

// How many answers there are of each kind, and how long the book is that is kept.
fn summary(alloc: Global, drawn: &Drawn) -> Result<String, Memory> {
    let answers = drawn.answers.as_str();
    let many = count_lines(answers, "");
    let mut text = joined(alloc, &[Number(many), Text(" answers: ")])?;
    for (name, front) in &FRONTS {
        add_count(alloc, &mut text, answers, *name, *front)?;
    }
    drawn.tally.add(alloc, &mut text)?;
    Ok(text)
}

// The same, and what a check says of what is kept, where the cells are those of the book that the plain server has kept.
fn told_of_kept<K: Keeper + Drop>(
    alloc: Global,
    keeper: K,
    drawn: &Drawn,
) -> Result<String, Memory> {
    let (entries, mut keeper) = checked(alloc, keeper);
    let held = held_text(alloc, &mut keeper)?;
    let kept = drawn.plain.kept();
    if !is_book(alloc, held.as_str(), kept)? {
        return joined(alloc, &[Text("other cells\n"), Text(held.as_str())]);
    }
    let Some(entries) = entries else {
        return joined(alloc, &[Text("not opened\n")]);
    };
    let mut text = summary(alloc, drawn)?;
    append_parts(
        alloc,
        &mut text,
        &[
            Text("kept "),
            Number(u64::from(kept.len())),
            Text(", check ok "),
            Number(u64::from(entries)),
            Text("\n"),
        ],
    )?;
    Ok(text)
}

/// What comes of drawn lines that are answered over a keeper.
pub fn played_over<K: Keeper + Drop>(
    alloc: Global,
    keeper: K,
    drawn: &Drawn,
) -> Result<String, Memory> {
    let (told, keeper) = fed(alloc, keeper, drawn.lines.as_str());
    let told = told?;
    let answers = drawn.answers.as_str();
    if told.as_str() == answers {
        told_of_kept(alloc, keeper, drawn)
    } else {
        compared(alloc, told.as_str(), answers)
    }
}

// What comes of the lines of a plan over a keeper in memory.
fn played(alloc: Global, plan: Plan) -> Result<String, Memory> {
    let drawn = draw_all(alloc, plan)?;
    let calls = schedule(alloc, plan.seed, plan.fails)?.into_vec();
    played_over(alloc, MemoryKeeper::new(alloc, calls), &drawn)
}

/// `SEED N FAILS STOPS`: what comes of so many lines that are drawn by the seed and answered over a keeper of whose calls one in so many
/// fails, with a stop in the place of one line in so many; with a fifth number the book is closed in the place of one line in so many.
/// The plain server must answer the same, and keep the same book.
pub fn generated(alloc: Global, words: &str) -> Result<Option<String>, Memory> {
    match plan_of(words) {
        Some(plan) => Ok(Some(played(alloc, plan)?)),
        None => Ok(None),
    }
}

/// The plain server after so many lines that are drawn by the seed, over a keeper that fails at no call.
pub fn drawn_server(alloc: Global, seed: u64, many: u64) -> Result<PlainServer, Memory> {
    let plan = Plan {
        seed,
        many,
        fails: 0,
        stops: 0,
        closes: 0,
    };
    Ok(draw_all(alloc, plan)?.plain)
}
