// How a command ended: the program's exit status. The later one in the list is the worse.
#[derive(Clone, Copy, PartialEq, Eq, PartialOrd, Ord)]
pub enum Status {
    // Done, and nothing was wrong with the input.
    Done = 0,
    // Done, and the answer is a no: something was refused, is damaged or differs.
    No = 1,
    // The command line is wrong, or a file or standard output cannot be read or written.
    NotDone = 2,
    // Nobody reads standard output any more, which is no fault and not told. A shell gives this status to a program that the system ends
    // for it.
    NotRead = 141,
}

// Why a command did nothing: it does not take these words. `ulmarzhe_run` has the commands' forms and says so, and the program ends as
// not done.
#[derive(Clone, Copy)]
pub struct WrongWords;

impl Status {
    pub fn code(self) -> u8 {
        self as u8
    }
}
