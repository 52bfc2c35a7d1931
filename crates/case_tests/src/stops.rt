// Calls whose disk fails at each of their calls: what they are told, and what the images that a crash then leaves are opened to.
use crate::call::{Call, Then, ask_numbers};
use crate::disks::{Images, Outcome, Plan, Side, made};
use crate::left::{Left, left_of, picks_of};
use crate::moments::{Each, Moment, of_mirror};
use crate::reached::{Reached, steps_reached, tells_steps};
use crate::script::Script;
use crate::telling::Telling;
use crate::text::Trouble;
use std::alloc::Global;
use std::sync::Wait;
use std::thread::Threads;
use top_calls::{Failing, RUN};

const FAULT: &[u8] = b"! disk fault\n";

/// What shows a mirror.
const RUN_MIRROR: &str = "isotope run t+";

/// A call that is made again and again, over disks of these bytes.
#[derive(Clone, Copy)]
pub(crate) struct Again<'a, 'b> {
    pub(crate) alloc: Global,
    pub(crate) call: &'a Call,
    pub(crate) images: Images<'b>,
}

/// How many bytes an output has in front of the line of the fault. None where no such line is its last.
fn front_of(output: &[u8]) -> Option<usize> {
    let front = output.strip_suffix(FAULT)?;
    if front.is_empty() || front.ends_with(b"\n") {
        Some(front.len())
    } else {
        None
    }
}

/// Whether the first `len` bytes of an output are those of one of the ways in which a script is answered. A fault follows them.
fn is_front(script: &Script, output: &[u8], len: usize) -> bool {
    let front = output.get(..len);
    let mut is_right = front == script.told.text.get(..len);
    for other in &script.others {
        is_right = is_right || front == other.text.get(..len);
    }
    front.is_some() && is_right
}

/// Whether a disk failed, or both sides of a mirror did, that a call with status 0 told nothing of.
fn is_untold(moment: Moment, outcome: &Outcome, is_mirror: bool) -> bool {
    let is_first = outcome.calls.0 >= moment.number;
    match moment.other {
        Some(other) => is_first && outcome.calls.1 >= other,
        None => is_first && !is_mirror,
    }
}

/// Whether a call did not tell what failed, or went on after it.
fn is_wrong(call: &Call, moment: Moment, outcome: &Outcome) -> bool {
    match outcome.status {
        0 => is_untold(moment, outcome, call.is_mirror()),
        5 => moment.is_alone && !call.is_mirror() && outcome.calls.0 != moment.number,
        _ => false,
    }
}

impl Again<'_, '_> {
    /// What is wanted of the output at a moment, where the rows say after how many calls each is told.
    fn is_told_exactly(
        self,
        telling: &mut Telling,
        moment: Moment,
        outcome: &Outcome,
    ) -> Result<bool, Trouble> {
        let calls = moment.number.saturating_sub(1);
        let is_cut = Some(calls) < self.call.calls;
        let mut wanted = self.call.script.told_behind(self.alloc, calls)?;
        if is_cut {
            wanted.text.extend_from_slice(FAULT)?;
        }
        let status = if is_cut { 5 } else { self.call.status };
        if u64::from(outcome.status) == status
            && outcome.output.as_slice() == wanted.text.as_slice()
        {
            return Ok(true);
        }
        let how = moment.text(self.alloc)?;
        telling.tell_difference(self.alloc, how.as_str(), &outcome.output, &wanted)?;
        Ok(false)
    }

    /// How many bytes of the replies were told: all of them, or whole lines in front of the one of the fault. None where it
    /// was told anything else.
    fn told_of(self, moment: Moment, outcome: &Outcome) -> Option<usize> {
        let script = &self.call.script;
        let is_silent = script.told.text.is_empty();
        if outcome.status == 0 {
            let is_right = script.is_answered(&outcome.output)
                || is_silent && tells_steps(script, &outcome.output);
            return if is_right { Some(usize::MAX) } else { None };
        }
        let len = front_of(&outcome.output)?;
        let is_right = is_silent || is_front(script, &outcome.output, len);
        if outcome.status == 5 && is_right && !moment.is_lasting {
            Some(len)
        } else {
            None
        }
    }

    /// The steps that were reached at a moment, by what was told. None, once this is told, where it is wrong.
    fn steps_at(
        self,
        telling: &mut Telling,
        moment: Moment,
        outcome: &Outcome,
    ) -> Result<Option<Reached>, Trouble> {
        let calls = moment.number.saturating_sub(1);
        let script = &self.call.script;
        if script.reached.is_some() {
            if !self.is_told_exactly(telling, moment, outcome)? {
                return Ok(None);
            }
            return Ok(Some(steps_reached(script, &outcome.output, 0, calls)));
        }
        match self.told_of(moment, outcome) {
            Some(len) => Ok(Some(steps_reached(script, &outcome.output, len, calls))),
            None => {
                let how = moment.text(self.alloc)?;
                let output = outcome.output.as_slice();
                telling.tell_difference(self.alloc, how.as_str(), output, &script.told)?;
                Ok(None)
            }
        }
    }

    /// How many steps what was opened shows, from the least to the most. None where it shows anything else.
    fn step_of(self, opened: &Outcome, bounds: (usize, usize)) -> Option<usize> {
        if let Some(sides) = opened.left.first() {
            if opened.status == 0 && !sides.lent().are_alike() {
                return None;
            }
        }
        for (i, show) in self.call.shows.iter().enumerate() {
            if bounds.0 <= i && i <= bounds.1 && show.is_answered(&opened.output) {
                return Some(i);
            }
        }
        None
    }

    /// How many steps an image shows. The sides of a mirror are to be alike then.
    fn shown<R: Threads + Wait + Sync>(
        self,
        rt: &R,
        images: Images<'_>,
        bounds: (usize, usize),
    ) -> Result<Option<usize>, Trouble> {
        let Some(show) = self.call.shows.first() else {
            return Ok(Some(0));
        };
        let (words, picks) = if self.call.is_mirror() {
            (RUN_MIRROR, 1)
        } else {
            (RUN, 0)
        };
        let plan = Plan::none();
        let opened = made(rt, self.alloc, words, images, plan, &show.input, picks)?;
        Ok(self.step_of(&opened, bounds))
    }

    /// Whether each image that a crash leaves of a stop of the second call shows this step.
    fn all_show<R: Threads + Wait + Sync>(
        self,
        rt: &R,
        outcome: &Outcome,
        step: usize,
    ) -> Result<bool, Trouble> {
        let all = left_of(self.alloc, &outcome.left, self.call.is_mirror())?;
        for left in &all {
            if self.shown(rt, left.images, (step, step))?.is_none() {
                return Ok(false);
            }
        }
        Ok(true)
    }

    /// Whether the second call, of which both sides stop at their call of this number, leaves what these images show. None where it does,
    /// and a later call of the disk is to be stopped.
    fn stays_behind<R: Threads + Wait + Sync>(
        self,
        rt: &R,
        then: &Then,
        images: Images<'_>,
        step: usize,
        number: u64,
    ) -> Result<Option<bool>, Trouble> {
        let plan = Moment::of_both(number, number).of_plan(Plan::none());
        let words = then.words.as_str();
        let picks = picks_of(self.call.is_mirror(), 3);
        let outcome = made(
            rt,
            self.alloc,
            words,
            images,
            plan,
            &then.script.input,
            picks,
        )?;
        let all_show = self.all_show(rt, &outcome, step)?;
        if all_show && outcome.status != 0 {
            return Ok(None);
        }
        Ok(Some(all_show))
    }

    /// Whether the second call, stopped at each of its calls on these images, leaves what they show. Where one in some stops is tried, it
    /// is not the same one after each moment.
    fn stays<R: Threads + Wait + Sync>(
        self,
        rt: &R,
        then: &Then,
        images: Images<'_>,
        step: usize,
        number: u64,
    ) -> Result<bool, Trouble> {
        let every = then.every.max(1);
        let first = (number % every).saturating_add(1);
        for round in 0..200u64 {
            let number = round.saturating_mul(every).saturating_add(first);
            if let Some(stays) = self.stays_behind(rt, then, images, step, number)? {
                return Ok(stays);
            }
        }
        Ok(false)
    }

    /// Whether images that a crash leaves show the steps that were reached, and go on to do so after the second call.
    fn is_shown<R: Threads + Wait + Sync>(
        self,
        rt: &R,
        telling: &mut Telling,
        moment: Moment,
        left: Left<'_>,
        bounds: (usize, usize),
    ) -> Result<bool, Trouble> {
        let shown = self.shown(rt, left.images, bounds)?;
        let stays = match (shown, &self.call.then) {
            (None, _) => false,
            (Some(_), None) => true,
            (Some(step), Some(then)) => self.stays(rt, then, left.images, step, moment.number)?,
        };
        if !stays {
            self.tell_image(telling, moment, left.pick, shown, bounds)?;
        }
        Ok(stays)
    }

    /// Whether each image that a crash leaves shows the steps that were reached.
    fn are_shown<R: Threads + Wait + Sync>(
        self,
        rt: &R,
        telling: &mut Telling,
        moment: Moment,
        outcome: &Outcome,
        steps: Reached,
    ) -> Result<bool, Trouble> {
        let all = left_of(self.alloc, &outcome.left, self.call.is_mirror())?;
        for left in &all {
            if !self.is_shown(rt, telling, moment, *left, steps.of(left.pick))? {
                return Ok(false);
            }
        }
        Ok(true)
    }

    /// Reports an image that shows anything else.
    fn tell_image(
        self,
        telling: &mut Telling,
        moment: Moment,
        pick: u64,
        shown: Option<usize>,
        bounds: (usize, usize),
    ) -> Result<(), Trouble> {
        let how = moment.text(self.alloc)?;
        let text = match shown {
            None => format!(in self.alloc;
                "{}, crash {pick}: the image shows neither step {} nor {}",
                how.as_str(),
                bounds.0,
                bounds.1
            )?,
            Some(shown) => format!(in self.alloc;
                "{}, crash {pick}: a stop of the second call leaves another image than step {shown}",
                how.as_str()
            )?,
        };
        telling.tell(self.call.line, text.as_str())
    }

    /// What is asked of the status and the numbers at a moment. False, once this is told, where they are not as wanted.
    fn ask_status(
        self,
        telling: &mut Telling,
        moment: Moment,
        outcome: &Outcome,
    ) -> Result<bool, Trouble> {
        let call = self.call;
        if is_wrong(call, moment, outcome) {
            let text = "the call that failed was not told, or was not the last one";
            telling.tell(call.line, text)?;
            return Ok(false);
        }
        if outcome.status == 0 && moment.other.is_none() && !call.is_mirror() {
            ask_numbers(self.alloc, telling, call, call.line, outcome)?;
        }
        Ok(true)
    }

    /// What is asked of all that a call gave at a moment. False, once this is told, where anything is not as wanted.
    fn ask_at<R: Threads + Wait + Sync>(
        self,
        rt: &R,
        telling: &mut Telling,
        moment: Moment,
        outcome: &Outcome,
    ) -> Result<bool, Trouble> {
        let Some(steps) = self.steps_at(telling, moment, outcome)? else {
            return Ok(false);
        };
        if !self.are_shown(rt, telling, moment, outcome, steps)? {
            return Ok(false);
        }
        self.ask_status(telling, moment, outcome)
    }

    /// The status at a moment. None, once this is told, where anything is not as wanted.
    fn status_at<R: Threads + Wait + Sync>(
        self,
        rt: &R,
        telling: &mut Telling,
        moment: Moment,
    ) -> Result<Option<u8>, Trouble> {
        let call = self.call;
        let words = call.words.as_str();
        let plan = moment.of_plan(call.plan);
        let picks = picks_of(call.is_mirror(), 6);
        let outcome = made(
            rt,
            self.alloc,
            words,
            self.images,
            plan,
            &call.script.input,
            picks,
        )?;
        let is_right = self.ask_at(rt, telling, moment, &outcome)?;
        Ok(if is_right { Some(outcome.status) } else { None })
    }

    /// A disk that fails at each call, until none fails. Where the rows say after how many calls each is told, up to two after the last.
    fn over_a_disk<R: Threads + Wait + Sync>(
        self,
        rt: &R,
        telling: &mut Telling,
        way: Failing,
    ) -> Result<(), Trouble> {
        let name = match way {
            Failing::From => "a stop at call",
            Failing::At => "a fault at call",
        };
        let calls = match (self.call.script.reached, self.call.calls) {
            (Some(_), Some(calls)) => calls.saturating_add(2),
            _ => 0,
        };
        for number in self.call.from..self.call.from.saturating_add(200) {
            let moment = Moment::of(Side::First, way, number, name);
            match self.status_at(rt, telling, moment)? {
                None => return Ok(()),
                Some(0) if number == self.call.from => {
                    let text = "the first call that is to fail is behind the last one";
                    return telling.tell(self.call.line, text);
                }
                Some(0) if number >= calls => return Ok(()),
                Some(_) => {}
            }
        }
        telling.tell(self.call.line, "it has no end within 200 calls of the disk")
    }

    /// How many calls each side of a mirror gets where nothing fails. The replies are asked for.
    fn calls_of_sides<R: Threads + Wait + Sync>(
        self,
        rt: &R,
        telling: &mut Telling,
    ) -> Result<(u64, u64), Trouble> {
        let call = self.call;
        let words = call.words.as_str();
        let whole = made(
            rt,
            self.alloc,
            words,
            self.images,
            call.plan,
            &call.script.input,
            0,
        )?;
        let _ = telling.is_told(self.alloc, "a reply", &whole.output, &call.script)?;
        Ok(whole.calls)
    }

    /// The moments of a mirror.
    fn over_a_mirror<R: Threads + Wait + Sync>(
        self,
        rt: &R,
        telling: &mut Telling,
        way: Failing,
        each: Each,
    ) -> Result<(), Trouble> {
        let calls = self.calls_of_sides(rt, telling)?;
        let moments = of_mirror(self.alloc, self.call, way, each.of, calls)?;
        for moment in &moments {
            if self.status_at(rt, telling, *moment)?.is_none() {
                return Ok(());
            }
        }
        Ok(())
    }

    /// A call whose disk fails at each of its calls, or at each alone, or the sides of its mirror.
    pub(crate) fn at_each<R: Threads + Wait + Sync>(
        self,
        rt: &R,
        telling: &mut Telling,
        each: Each,
    ) -> Result<(), Trouble> {
        for (is_wanted, way) in [(each.stops, Failing::From), (each.faults, Failing::At)] {
            if is_wanted && self.call.is_mirror() {
                self.over_a_mirror(rt, telling, way, each)?;
            } else if is_wanted {
                self.over_a_disk(rt, telling, way)?;
            }
        }
        Ok(())
    }
}
