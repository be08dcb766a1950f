//! The statistics of a queue, as IPC_STAT of msgctl(2) returns them, and those of a slot.

ghost use Rattle.std.specs.Prelude.{Some};
ghost use Rattle.mq_queue.specs.Shown.{figures_text, row_text};

use std::fmt;

/// What IPC_STAT shows of a queue, by the names of msgctl(2).
#[derive(Clone, Copy, Debug, PartialEq, Eq)]
pub struct Figures {
    /// How many messages are pending.
    pub qnum: u64,
    /// How many bytes are pending.
    pub cbytes: u64,
    /// The quota: the most bytes that may be pending, and the most messages.
    pub qbytes: u64,
    /// The moment of the last sending, or 0.
    pub stime: u64,
    /// The moment of the last receipt, or 0.
    pub rtime: u64,
    /// The moment of the making, or of the last new quota.
    pub ctime: u64,
    /// The seat that sent last, or 0.
    pub lspid: u16,
    /// The seat that received last, or 0.
    pub lrpid: u16,
}

/// The figures where no queue is.
pub const NO_FIGURES: Figures = Figures {
    qnum: 0,
    cbytes: 0,
    qbytes: 0,
    stime: 0,
    rtime: 0,
    ctime: 0,
    lspid: 0,
    lrpid: 0,
};

/// What a report shows of a slot, which has one queue after another.
#[derive(Clone, Copy, Debug, PartialEq, Eq)]
pub struct BoardRow {
    /// How many queues were made in it.
    pub made: u32,
    /// Whether one of them is not yet removed.
    pub live: bool,
    /// Its key, or 0.
    pub key: i32,
    /// Its figures, or all 0.
    pub figures: Figures,
}

/// In words, as `qnum=1 cbytes=3 qbytes=131072 lspid=1 lrpid=0 stime=77 rtime=0 ctime=76`.
impl fmt::Display for Figures {
    ghost output = { λ figures. Some (figures_text figures) };

    fn fmt<W: fmt::Write>(&self, f: &mut fmt::Formatter<W>) -> fmt::Result {
        let (qnum, cbytes, qbytes) = (self.qnum, self.cbytes, self.qbytes);
        let (lspid, lrpid) = (self.lspid, self.lrpid);
        let (stime, rtime, ctime) = (self.stime, self.rtime, self.ctime);
        write!(
            f,
            "qnum={qnum} cbytes={cbytes} qbytes={qbytes} lspid={lspid} lrpid={lrpid} \
             stime={stime} rtime={rtime} ctime={ctime}"
        )
    }
}

/// In words, as `made=1 live=true key=5`, and then as its figures are.
impl fmt::Display for BoardRow {
    ghost output = { λ row. Some (row_text row) };

    fn fmt<W: fmt::Write>(&self, f: &mut fmt::Formatter<W>) -> fmt::Result {
        let (made, live, key) = (self.made, self.live, self.key);
        let figures = self.figures;
        write!(f, "made={made} live={live} key={key} {figures}")
    }
}
