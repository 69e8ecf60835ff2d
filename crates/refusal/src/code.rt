// The sixteen error codes of the original's src/error.rs, and OK, each at its value: numbers, and no enum, as document 01 gives them to a host.
pub const EINVAL: i32 = -22;

pub const EBUSY: i32 = -16;

pub const EAGAIN: i32 = -11;

pub const EPERM: i32 = -1;

pub const ENOMEM: i32 = -12;

pub const EPIPE: i32 = -32;

pub const ENOMSG: i32 = -35;

pub const ETIMEDOUT: i32 = -116;

pub const ECANCELED: i32 = -140;

pub const ENOSPC: i32 = -28;

pub const ENOENT: i32 = -2;

pub const EOVERFLOW: i32 = -139;

pub const EBADF: i32 = -9;

pub const EADDRINUSE: i32 = -112;

pub const EDEADLK: i32 = -45;

pub const EALREADY: i32 = -114;

pub const OK: i32 = 0;
