//! What the help says below the words and options.

// What the help of `threads` and that of `mqsim` share, which begins the one and stands in the
// other.
macro_rules! notes {
    ($before:literal, $between:literal) => {
        concat!(
            $before,
            "\
A threads script begins with get and set lines, made one after the other. Then come
up to 15 sections, each of which runs on a thread of its own:
  worker                     begins a section
  put ID TYPE COUNT LEN      sends COUNT texts of LEN bytes, and waits for room
  take ID TYPE COUNT         receives COUNT texts, and blocks while none matches
  rm ID                      removes the queue; its waiters end with EIDRM
A put whose queue never gets room, or a take that no message ever matches,
blocks until the queue is removed, or forever; within MS behind it is a timeout.",
            $between,
            "\
A script is read to its end before the first answer; at a terminal, Ctrl-D ends it.
There, and with -i, each line of a serial script is answered before the next is read,
and one that is not well formed is answered line N: CAUSE, and skipped."
        )
    };
}

/// The end of the help of `mqsim`.
pub const NOTES: &str = notes!(
    "\
Options of each command: --height <H>, --slots <S>, --last-seq <Q>. What each means,
its range and its default: mqsim serial --help.

An example, to be pasted:
  printf 'get 7 c\\nsnd 0 1 =hello\\nrcv 0 9 0\\n' | mqsim

A line of a serial script is one call, with one space between its words:
  get KEY [c|x|cx]           finds or makes a queue (c IPC_CREAT, x IPC_EXCL)
  snd ID TYPE =TEXT          sends a text; *N for it sends N letters
  rcv ID SIZE TYPE [e|n|en]  receives a text (e MSG_EXCEPT, n MSG_NOERROR)
  stat ID                    shows the queue's statistics, as IPC_STAT does
  set ID QBYTES              sets its quota, as IPC_SET does
  rm ID                      removes it, as IPC_RMID does
  cut SLOT                   drains the log of a slot
  ipcs                       shows all queues
  ipcs -q [x]                the same as ipcs(1) does, x with keys in hexadecimal
  ipcs -l                    shows the limits, as ipcs(1) does
  info                       shows what is in use, all slots and pages, and the
                             limits, as IPC_INFO does
  arena                      shows how many pages there are, and are free
  seat S                     makes the calls from here on at seat S, 1 to 16
An empty line, and one that begins with #, is ignored.

",
    "

A line that is not well formed ends the run, as in mqsim: line 3: number. Its cause:
  long    it has more than 4,096 bytes
  byte    it has a byte that is not printable ASCII, such as a tab
  words   a word is unknown, missing or too many, or there are two spaces in a row
  number  it has 0x4d2, 07 or +7 for a number, or one out of its range
docs/SCRIPT.md has the lines, the answers, the faults and the exit statuses.

"
);

/// The end of the help of `mqsim serial`.
pub const SERIAL_NOTES: &str = "The lines of a script: mqsim --help.";

/// The end of the help of `mqsim threads`.
pub const THREADS_NOTES: &str = notes!("", "\n\n");
