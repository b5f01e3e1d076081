//! Cases, as files say them, and whether what came of them is what they say.
//!
//! A file has lines. An empty one, and one that begins with `#`, says nothing. The others begin with a word:
//!
//! | line | says |
//! |---|---|
//! | `case NAME` | a case begins. The lines above a file's first case stand at the head of each of its cases |
//! | `wrong WHAT` | the case is wrong, and has to be refused for this; so it shows that the like is looked at |
//! | `image fresh L T E P` | at first there is what `format` makes of these numbers; 4 8 16 64 where no line says it |
//! | `image zeros N` | at first there are N zeros |
//! | `file` | each run goes over a file in memory, once for each way in which its calls are answered: wholly, in parts, with interruptions, and a mixture of these. There `fail medium` counts the calls of the file, and no `calls` and no `call` are said. It comes to what the same run over memory does; where a call failed, to what that does whose same call fails |
//!
//! A run over the image, and what goes wrong in it. Numbers are counted from 1, and `A to B` may be one number alone:
//!
//! | line | says |
//! |---|---|
//! | `length N` | before the run the image is cut to N bytes, or lengthened with zeros |
//! | `set AT HEX` | before the run the image has these bytes from AT on |
//! | `words WORD ..` | the words of the run; where no line says them there are none |
//! | `> TEXT` | a line of its input |
//! | `drawn N SEED` | N lines of raw commands, drawn from a seed |
//! | `loads N A to B` | the keys A to B are put, each K with the value `vK`, N in a transaction; and the answers that all this was done |
//! | `hold PLACE W N C T S F` | as worker W comes to a place for the T-th time, flag S is set, and then flag F is waited for. There are four flags, from 1 on, and 0 is none. PLACE is `began`, `answered`, `offered` or `ended`, in the N-th transaction of caller W, C being the call that is answered, or else 0; or `read`, before reader W asks for its N-th key. No wait may be given up |
//! | `fail read A to B` | one read fails. The run is made once for the A-th read, once for the next, and so on to the B-th. `fail write` and `fail medium` are the same of the sink and of the medium |
//! | `power A to B` | power is lost: the medium takes A calls, and fails each behind them. Again one run for each number |
//!
//! What it comes to:
//!
//! | line | says |
//! |---|---|
//! | `< TEXT` | a line of what it answers |
//! | `front` | at the K-th write that fails only the K - 1 answers before it |
//! | `unsaid` | no answers are said. Those of raw commands are the plain store's in any case, where the status is 0 |
//! | `status N TEXT` | the number that it ends with, and the text told of it; `status 0` where no line says it |
//! | `or` | the answers and the status above are one way; another follows, and either will do |
//! | `unfailed` | with `fail medium`: this way will do just where the run made too few calls for one to fail. Each other way will do just where one failed |
//! | `has AT HEX` | the image has these bytes from AT on |
//! | `only` | all its other bytes are as they were before the run |
//! | `unwritten` | no write was asked of the medium |
//! | `stops` | of the medium no call was made behind the one that failed |
//! | `calls N` | so many calls were made of the medium |
//! | `call K TEXT` | the K-th of them is `barrier`, `read AT LEN` or `write AT LEN` |
//! | `then HEX ..` | another run follows over what is left. It is made once for each of these choices: wherever nothing is sure after a loss of power stand these bytes, over and over; `-` is what a read gave. Without any, `-` |
//!
//! HEX is bytes as digits. `HEX*N` has them N times. In TEXT `\x0d` is a byte, and `{abc*17}` is `abc` 17 times. `>*17 TEXT` is
//! the line 17 times, and `>| TEXT` the text without a newline; so for `<`.
#![tactic(auto)]

mod calls;
mod case;
mod comparing;
mod draws;
mod fault;
mod fields;
mod file;
mod held;
mod loads;
mod ran;
mod report;
mod run;
mod text_lines;
mod traced;
mod traced_media;

pub use case::{Case, Image};
pub use comparing::{compare, compare_ran};
pub use draws::Draws;
pub use fault::{BadLine, LineFault};
pub use file::read_cases;
pub use held::{Held, Stop};
pub use ran::Ran;
pub use report::{CaseFault, Report};
pub use run::{Left, Made, Placed, Run, Trouble, TroubleKind, Wanted};
pub use traced::{Call, Record, has_failed};
pub use traced_media::TracedMedia;
