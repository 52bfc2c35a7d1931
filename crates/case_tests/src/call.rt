// A call as a case has it, and what is asked of it.
use crate::disks::{Images, Outcome, Plan, Side, made};
use crate::script::{Row, Script, sides_of};
use crate::telling::Telling;
use crate::text::{Names, Trouble, bytes_of, number_of, two_numbers};
use crate::words::Word;
use std::alloc::Global;
use std::sync::Wait;
use std::thread::Threads;
use top_calls::{RECOVER, RUN, change};

/// A second call, on each image that a stop of the first one leaves. It is stopped too.
#[derive(Drop)]
pub(crate) struct Then {
    pub(crate) words: String,
    pub(crate) script: Script,
    /// One in `every` of its stops is tried after each stop of the first one.
    pub(crate) every: u64,
}

/// A call, and what is wanted of it.
#[derive(Drop)]
pub(crate) struct Call {
    /// Where it is in the file.
    pub(crate) line: usize,
    pub(crate) words: String,
    pub(crate) plan: Plan,
    /// The first call of the disk that fails, where each does.
    pub(crate) from: u64,
    /// After how many calls of each side a failure of one side ends nothing.
    pub(crate) lasting: Option<(u64, u64)>,
    pub(crate) status: u64,
    /// How many calls of the disk are wanted, or of the first side, and of the second one.
    pub(crate) calls: Option<u64>,
    pub(crate) second_calls: Option<u64>,
    pub(crate) script: Script,
    /// What the image shows after no step, one, and so on.
    pub(crate) shows: Vec<Script>,
    pub(crate) then: Option<Then>,
}

impl Call {
    pub(crate) fn new(alloc: Global) -> Self {
        Call {
            line: 0,
            words: String::new(alloc),
            plan: Plan::none(),
            from: 1,
            lasting: None,
            status: 0,
            calls: None,
            second_calls: None,
            script: Script::new(alloc),
            shows: Vec::new(alloc),
            then: None,
        }
    }

    /// The script to which the next rows belong.
    pub(crate) fn script_below(&mut self) -> &mut Script {
        if let Some(show) = self.shows.last_mut() {
            return show;
        }
        match &mut self.then {
            Some(then) => &mut then.script,
            None => &mut self.script,
        }
    }

    /// Begins it, with these words.
    pub(crate) fn begin(&mut self, alloc: Global, words: &str) -> Result<(), Trouble> {
        self.words = String::from_str(alloc, words)?;
        Ok(())
    }

    /// Says how many calls of a side are wanted.
    fn want_calls(&mut self, side: Side, calls: u64) {
        match side {
            Side::First => self.calls = Some(calls),
            Side::Second => self.second_calls = Some(calls),
        }
    }

    /// Whether there is a second call. One in `every` of its stops is tried then.
    fn set_every(&mut self, every: u64) -> bool {
        match &mut self.then {
            Some(then) => {
                then.every = every;
                true
            }
            None => false,
        }
    }

    /// Whether a line says more of it.
    pub(crate) fn goes_on(&mut self, side: Side, word: Word, rest: &str) -> Result<bool, Trouble> {
        match word {
            Word::Status => self.status = number_of(rest)?,
            Word::From => self.from = number_of(rest)?,
            Word::Lasting => self.lasting = Some(two_numbers(rest)?),
            Word::Calls => self.want_calls(side, number_of(rest)?),
            Word::Every => return Ok(self.set_every(number_of(rest)?)),
            _ => return self.plan.goes_on(side, word, rest),
        }
        Ok(true)
    }

    /// Begins the second call, of these words.
    fn begin_second(&mut self, alloc: Global, words: &str) -> Result<(), Trouble> {
        let words = String::from_str(alloc, words)?;
        let script = Script::new(alloc);
        self.then = Some(Then {
            words,
            script,
            every: 1,
        });
        Ok(())
    }

    /// Begins a script that an image shows.
    fn begin_show(&mut self, alloc: Global) -> Result<(), Trouble> {
        self.shows.push(Script::new(alloc))?;
        Ok(())
    }

    /// Whether a line is one after which other rows of it begin.
    pub(crate) fn begins_rows(
        &mut self,
        alloc: Global,
        word: Word,
        rest: &str,
    ) -> Result<bool, Trouble> {
        match word {
            Word::Step => self.script.end_step(alloc, rest)?,
            Word::Reached => self.script.reach(rest)?,
            Word::Or => self.script_below().begin_other(alloc)?,
            Word::Shows => self.begin_show(alloc)?,
            Word::Then => self.begin_second(alloc, rest)?,
            _ => return Ok(false),
        }
        Ok(true)
    }

    /// Whether it is one over a mirror.
    pub(crate) fn is_mirror(&self) -> bool {
        for word in self.words.split(' ') {
            if word.ends_with('+') {
                return true;
            }
        }
        false
    }
}

/// Asks how many calls a side got.
fn ask_calls(
    alloc: Global,
    telling: &mut Telling,
    line: usize,
    wanted: Option<u64>,
    found: u64,
) -> Result<(), Trouble> {
    match wanted {
        Some(calls) if calls != found => {
            let text = format!(in alloc; "{calls} calls of the disk wanted, {found} found")?;
            telling.tell(line, text.as_str())
        }
        _ => Ok(()),
    }
}

/// Asks the status and the numbers of calls.
pub(crate) fn ask_numbers(
    alloc: Global,
    telling: &mut Telling,
    call: &Call,
    line: usize,
    outcome: &Outcome,
) -> Result<(), Trouble> {
    if u64::from(outcome.status) != call.status {
        let text = format!(in alloc; "status {} wanted, {} found", call.status, outcome.status)?;
        telling.tell(line, text.as_str())?;
    }
    ask_calls(alloc, telling, line, call.calls, outcome.calls.0)?;
    ask_calls(alloc, telling, line, call.second_calls, outcome.calls.1)
}

/// Asks them, and the replies of a script.
fn ask_all(
    alloc: Global,
    telling: &mut Telling,
    call: &Call,
    line: usize,
    outcome: &Outcome,
    script: &Script,
) -> Result<(), Trouble> {
    ask_numbers(alloc, telling, call, line, outcome)?;
    let _ = telling.is_told(alloc, "a reply", &outcome.output, script)?;
    Ok(())
}

/// One call.
pub(crate) fn once<R: Threads + Wait + Sync>(
    rt: &R,
    alloc: Global,
    telling: &mut Telling,
    call: &Call,
    images: Images<'_>,
) -> Result<Outcome, Trouble> {
    let words = call.words.as_str();
    let outcome = made(rt, alloc, words, images, call.plan, &call.script.input, 6)?;
    match ask_all(alloc, telling, call, call.line, &outcome, &call.script) {
        Ok(()) => Ok(outcome),
        Err(trouble) => Err(trouble),
    }
}

/// The same on each image that a crash may leave of what another call gave.
pub(crate) fn on_each_crash<R: Threads + Wait + Sync>(
    rt: &R,
    alloc: Global,
    telling: &mut Telling,
    call: &Call,
    before: &Outcome,
) -> Result<(), Trouble> {
    let failed = telling.failed;
    for sides in &before.left {
        let _ = once(rt, alloc, telling, call, sides.lent())?;
        if telling.failed != failed {
            return Ok(());
        }
    }
    if before.left.is_empty() {
        return Err(Trouble::Said("no call is before this one"));
    }
    Ok(())
}

/// The words of the call of a row, which the row has where the call has none.
fn words_of(alloc: Global, call: &Call, script: &Script) -> Result<String, Trouble> {
    if call.words.is_empty() {
        Ok(String::from_utf8_lossy(alloc, &script.input)?)
    } else {
        Ok(String::from_str(alloc, call.words.as_str())?)
    }
}

/// A row as the script of a call of its own, or as the words of one.
fn on_row<R: Threads + Wait + Sync>(
    rt: &R,
    alloc: Global,
    telling: &mut Telling,
    call: &Call,
    images: Images<'_>,
    line: usize,
    script: &Script,
) -> Result<(), Trouble> {
    let words = words_of(alloc, call, script)?;
    let input: &[u8] = if call.words.is_empty() {
        b""
    } else {
        &script.input
    };
    let outcome = made(rt, alloc, words.as_str(), images, call.plan, input, 0)?;
    ask_all(alloc, telling, call, line, &outcome, script)
}

/// The script of one row.
fn script_of(alloc: Global, names: Names<'_>, row: &Row) -> Result<Script, Trouble> {
    let mut script = Script::new(alloc);
    match script.add(alloc, names, row) {
        Ok(()) => Ok(script),
        Err(trouble) => Err(trouble),
    }
}

/// Each row so.
pub(crate) fn each_row<R: Threads + Wait + Sync>(
    rt: &R,
    alloc: Global,
    telling: &mut Telling,
    call: &Call,
    images: Images<'_>,
    names: Names<'_>,
    rows: &[Row],
) -> Result<(), Trouble> {
    for row in rows {
        let script = script_of(alloc, names, row)?;
        on_row(rt, alloc, telling, call, images, row.line, &script)?;
    }
    Ok(())
}

/// Changes bytes of an image: places and bytes, one after the other.
pub(crate) fn change_all(alloc: Global, image: &mut Vec<u8>, text: &str) -> Result<(), Trouble> {
    let mut words = text.split_whitespace();
    while let Some(word) = words.next() {
        let Ok(place) = usize::try_from(number_of(word)?) else {
            return Err(Trouble::Said("a place lies outside all images"));
        };
        let Some(bytes) = words.next() else {
            return Err(Trouble::Said("behind each place stand its bytes"));
        };
        change(image, place, &bytes_of(alloc, bytes)?);
    }
    Ok(())
}

/// That an image is refused with these replies by both calls that open one, and stays as it is.
fn is_refused<R: Threads + Wait + Sync>(
    rt: &R,
    alloc: Global,
    telling: &mut Telling,
    image: &[u8],
    script: &Script,
) -> Result<(), Trouble> {
    let images = Images {
        first: image,
        second: &[],
    };
    for words in [RUN, RECOVER] {
        // the script is not read, so its bad line is not met
        let outcome = made(rt, alloc, words, images, Plan::none(), b"1 jump\n", 6)?;
        ask_refusal(alloc, telling, words, image, &outcome, script)?;
    }
    Ok(())
}

/// Asks this of what a call gave.
fn ask_refusal(
    alloc: Global,
    telling: &mut Telling,
    words: &str,
    image: &[u8],
    outcome: &Outcome,
    script: &Script,
) -> Result<(), Trouble> {
    let _ = telling.is_told(alloc, words, &outcome.output, script)?;
    if outcome.status == 4 && outcome.leaves(Side::First, image) {
        return Ok(());
    }
    telling.tell_of_case("status 4 and an unchanged image are wanted")
}

/// A row as changes of an image, and what it is refused for then.
fn on_damage<R: Threads + Wait + Sync>(
    rt: &R,
    alloc: Global,
    telling: &mut Telling,
    image: &[u8],
    row: &Row,
    script: &Script,
) -> Result<(), Trouble> {
    let (changes, _) = sides_of(row.text.as_str());
    let mut image = image.to_vec(alloc)?;
    change_all(alloc, &mut image, changes.unwrap_or(""))?;
    is_refused(rt, alloc, telling, &image, script)
}

/// Each row so.
pub(crate) fn each_damage<R: Threads + Wait + Sync>(
    rt: &R,
    alloc: Global,
    telling: &mut Telling,
    image: &[u8],
    names: Names<'_>,
    rows: &[Row],
) -> Result<(), Trouble> {
    for row in rows {
        let script = script_of(alloc, names, row)?;
        on_damage(rt, alloc, telling, image, row, &script)?;
    }
    Ok(())
}
