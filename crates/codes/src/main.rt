// Every host code has the value that the original's src/error.rs gives it: each line is proved, and run.
#![tactic(auto)]

use refusal::code;

fn main() {
    check::expect(code::EINVAL == -22);
    check::expect(code::EBUSY == -16);
    check::expect(code::EAGAIN == -11);
    check::expect(code::EPERM == -1);
    check::expect(code::ENOMEM == -12);
    check::expect(code::EPIPE == -32);
    check::expect(code::ENOMSG == -35);
    check::expect(code::ETIMEDOUT == -116);
    check::expect(code::ECANCELED == -140);
    check::expect(code::ENOSPC == -28);
    check::expect(code::ENOENT == -2);
    check::expect(code::EOVERFLOW == -139);
    check::expect(code::EBADF == -9);
    check::expect(code::EADDRINUSE == -112);
    check::expect(code::EDEADLK == -45);
    check::expect(code::EALREADY == -114);
    check::expect(code::OK == 0);
}
