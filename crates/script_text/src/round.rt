// The script of a bench, a round at a time.
ghost use Rattle.std.specs.Prelude.{◌≡◌, ◌+◌, ◌≤◌, ◌<◌, [], ◌++◌, codes, decimal};
ghost use Rattle.script_model.specs.Bench.{after_draws, drawn_round, round_text};

use crate::Generator;
use crate::ending::Ending;
use std::marker::Model;

/// The text of the eight lines of a round. Contracts see it. No call takes memory.
#[derive(Debug, Drop)]
pub struct Round {
    lines: Ending,
}

impl Model for Round {
    ghost use Rattle.std.specs.Prelude.{ℕ, List};

    ghost Value = { List ℕ };

    ghost view = { λ a. a.lines.text };
}

impl Round {
    /// No lines.
    pub fn empty() -> Self
        ensures { result ≡ [] }
    {
        Round {
            lines: Ending::new(),
        }
    }

    /// Makes the lines of the next round: six numbers are drawn for it.
    pub fn draw(&mut self, generator: &mut Generator)
        ensures text { self.new ≡ drawn_round generator.old }
        ensures state { generator.new ≡ after_draws 6 generator.old }
    {
        let p = generator.next() % 64;
        let q = generator.next() % 64;
        let i = generator.next() % 16;
        let j = generator.next() % 16;
        let v = generator.next() % 256;
        let w = generator.next() % 256;
        put_round(&mut self.lines, p, q, i, j, v as u8, w as u8);
    }

    /// The lines.
    pub fn text(&self) -> &[u8]
        ensures { result.now ≡ self.now }
    {
        self.lines.as_slice()
    }
}

/// Makes the lines of a round: two clients read and write two blocks crosswise.
fn put_round(lines: &mut Ending, p: u32, q: u32, i: u32, j: u32, v: u8, w: u8)
    requires blocks { (p < 64) × (q < 64) }
    requires places { (i < 16) × (j < 16) }
    ensures { lines.new.text ≡ round_text p q i j v w }
{
    lines.clear();
    lines.put(b"\n1 end\n2 end\n");
    lines.put_hex(&[w]);
    lines.put(b" ");
    put_two(lines, p, 4 * i);
    lines.put(b" 4\n2 put ");
    put_two(lines, q, 4 * i);
    lines.put(b"\n2 get ");
    lines.put_hex(&[v]);
    lines.put(b" ");
    put_two(lines, q, 4 * j);
    lines.put(b" 4\n1 put ");
    put_two(lines, p, 4 * i);
    lines.put(b"1 begin\n2 begin\n1 get ");
}

/// Puts two numbers of at most two digits, with a space between them.
fn put_two(lines: &mut Ending, first: u32, second: u32)
    requires numbers { (first < 100) × (second < 100) }
    requires room { 23 ≤ lines.old.room }
    ensures text { lines.new.text ≡ decimal first ++ (codes " " ++ (decimal second ++ lines.old.text)) }
    ensures room { lines.old.room ≤ lines.new.room + 5 }
{
    lines.put_number(u64::from(second));
    lines.put(b" ");
    lines.put_number(u64::from(first));
}
