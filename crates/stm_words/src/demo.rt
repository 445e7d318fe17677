//! The text of a generated workload.
ghost use Rattle.std.specs.Prelude.{◌≡◌, IfOk};
ghost use Rattle.stm_words.specs.Demo.{demo_of};

use py_base::NoMemory;
use std::alloc::Global;

/// The text before the number.
const BEFORE: &str = "import thread, threading
accounts = [1000, 1000, 1000, 1000, 1000, 1000, 1000, 1000]
guard = thread.allocate_lock()
done = [0]
def work(seed, turns):
    x = seed
    i = 0
    while i < turns:
        x = (x * 1103515245 + 12345) % 2147483648
        a = x / 65536 % 8
        b = (x / 524288 + 1) % 8
        guard.acquire()
        accounts[a] -= 1
        accounts[b] += 1
        done[0] += 1
        guard.release()
        i += 1
ts = []
k = 0
while k < 4:
    t = threading.Thread(target=work, args=(";

/// The text behind the number.
const BEHIND: &str = " + k, 2500))
    t.start()
    ts.append(t)
    k += 1
for t in ts:
    t.join()
total = 0
for v in accounts:
    total += v
print 'total', total
print 'transfers', done[0]
";

/// The text of the workload with that number, by `docs/LANGUAGE.md`, "The words of a call": four threads move amounts
/// between eight accounts, 10,000 times in all, as a generator of numbers says that begins at the number.
pub fn demo_text(alloc: Global, n: u32) -> Result<Vec<u8>, NoMemory>
    ensures { IfOk result (λ text. text.items ≡ demo_of n) }
{
    let number = n.to_string(alloc)?;
    let mut text = Vec::from_slice(alloc, BEFORE.as_bytes())?;
    text.extend_from_slice(number.as_bytes())?;
    text.extend_from_slice(BEHIND.as_bytes())?;
    Ok(text)
}
