//! Scripts that tests of texts and tests of runs share.

/// A script with threads, as a user writes it.
pub const COUNTER: &str = "import threading

class Counter(object):
    \"\"\"Counts words.\"\"\"
    def __init__(self, name):
        self.name = name
        self.counts = {}
        self.lock = threading.Lock()

    def add(self, word, n):
        self.lock.acquire()
        try:
            self.counts[word] = self.counts.get(word, 0) + n
        finally:
            self.lock.release()

def worker(counter, words, times):
    for i in xrange(times):
        for w in words:
            counter.add(w, 1)

if __name__ == '__main__':
    c = Counter('words')
    threads = []
    for text in ['the cat', 'the dog', 'a cat', 'the end']:
        t = threading.Thread(target=worker, args=(c, text.split(), 50))
        t.start()
        threads.append(t)
    for t in threads:
        t.join()
    print c.name, len(c.counts)
    for w in sorted(c.counts.keys()):
        print '%s: %d' % (w, c.counts[w])
";
