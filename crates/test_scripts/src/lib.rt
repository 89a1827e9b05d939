// The scripts of a generated dispatcher. Each call of each script is a plain function of a few numbers of a
// plan.
#![tactic(auto)]

ghost use Rattle.std.specs.Prelude.{◌<◌, ◌≤◌};

use dispatcher::scripts::{SCRIPTS, ScriptCall, Scripts};

// The numbers of a dispatcher's scripts.
#[derive(Clone, Copy)]
pub struct Plan {
    // How many there are, in some dispatchers too many.
    pub count: usize,
    // The length of the data buffer.
    pub data: usize,
    pub minute: usize,
    // Which script has 17 calls, and which has Writes that end a byte past the data.
    pub long: Option<usize>,
    pub past: Option<usize>,
    pub base: usize,
    pub stride: usize,
}

// The modulus of the recurrence.
const MODULUS: usize = 2147483647;

fn scaled(n: usize, stride: usize) -> usize
    requires { (n < 1024) × (stride < 2147483647) }
    ensures { result ≤ 2199023254528 }
{
    n * stride
}

// A number for place n, as if drawn. Only two functions have the bound of n, so that it has no type of its
// own.
fn drawn(p: Plan, n: usize) -> usize
    requires { n < 1024 }
{
    let base = p.base % MODULUS;
    let sum = base + scaled(n, p.stride % MODULUS);
    48271 * (1 + sum % (MODULUS - 1)) % MODULUS
}

// Near the start, now and then near the end.
fn seek_to(rest: usize) -> usize {
    if rest % 16 == 0 {
        return 4090 + rest / 16 % 10;
    }
    rest / 16 % 12
}

// A few bytes, now and then more than the usual buffer has.
fn read_count(rest: usize) -> usize {
    if rest % 16 == 0 {
        return 14 + rest / 16 % 6;
    }
    rest / 16 % 8
}

// A descriptor of file 0 or 1, now and then 16 or 17.
fn descriptor(q: usize) -> usize {
    if q / 8 % 32 == 0 {
        return 16 + q / 1024 % 2;
    }
    q / 256 % 2 + 8 * (q / 512 % 2)
}

// A script of a plan.
#[derive(Clone, Copy)]
struct PlannedScript {
    plan: Plan,
    number: usize,
    ghost in_range: { number < 8 },
}

impl PlannedScript {
    // How many calls it has: mostly up to 6, sometimes up to 16 or none.
    fn calls(self) -> usize
        ensures { result ≤ 17 }
    {
        let q = drawn(self.plan, 512 + self.number);
        if self.plan.long == Some(self.number) {
            return 17;
        }
        match q % 8 {
            0 => 0,
            1 => 1 + q / 8 % 16,
            _ => 1 + q / 8 % 6,
        }
    }

    // A Write of up to 4 bytes, cut at the end of the data; in one script it ends a byte past it.
    fn write(self, d: usize, rest: usize) -> ScriptCall {
        let data = self.plan.data % 64;
        let start = rest % (data + 1);
        let size = (rest / 64 % 5).min(data - start);
        if self.plan.past == Some(self.number) {
            return ScriptCall::Write(d, data + 1 - size, size);
        }
        ScriptCall::Write(d, start, size)
    }

    // Call j. No other function has the number of a call, so that it has no type of its own.
    fn call(self, j: usize) -> ScriptCall
        requires { j < 17 }
    {
        let q = drawn(self.plan, 32 * self.number + j);
        let rest = q / 1024;
        let d = descriptor(q);
        match q % 8 {
            0 | 1 => ScriptCall::Seek(d, seek_to(rest)),
            2..=4 => self.write(d, rest),
            5 => ScriptCall::GetFilePointer(d),
            _ => ScriptCall::Read(d, read_count(rest)),
        }
    }

    // The scripts with its calls more.
    fn put_into(self, mut scripts: Scripts) -> Scripts {
        for j in 0..self.calls() {
            scripts = scripts.then(self.number, self.call(j));
        }
        scripts
    }
}

// The scripts of a plan.
pub fn plan_scripts(plan: Plan) -> Scripts {
    let mut scripts = Scripts::new(plan.count);
    for number in 0..plan.count.min(SCRIPTS) {
        let script = PlannedScript { plan, number };
        scripts = script.put_into(scripts);
    }
    scripts
}
