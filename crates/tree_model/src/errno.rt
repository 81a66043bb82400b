ghost use Rattle.std.specs.Prelude.{◌≡◌};
ghost use Rattle.tree_model.specs.ReplyText.{errno_word};
ghost use Rattle.tree_model.specs.Errnos.{errno_code};

/// Why an operation was refused: an error of POSIX `errno.h`.
#[derive(Clone, Copy, Debug, PartialEq, Eq)]
pub enum Errno {
    EPERM = 1,
    ENOENT = 2,
    EEXIST = 17,
    ENOTDIR = 20,
    EISDIR = 21,
    EINVAL = 22,
    EFBIG = 27,
    ENOSPC = 28,
    EMLINK = 31,
    ENOTEMPTY = 39,
    ELOOP = 40,
    ENODATA = 61,
}

impl Errno {
    /// The number that Linux gives the error.
    pub fn code(self) -> u32
        ensures { result ≡ errno_code self }
    {
        self as u32
    }

    /// The name in `errno.h`, in capitals.
    pub fn word(self) -> &'static str
        ensures { result.now ≡ errno_word self }
    {
        match self {
            Errno::EPERM => "EPERM",
            Errno::ENOENT => "ENOENT",
            Errno::EEXIST => "EEXIST",
            Errno::ENOTDIR => "ENOTDIR",
            Errno::EISDIR => "EISDIR",
            Errno::EINVAL => "EINVAL",
            Errno::EFBIG => "EFBIG",
            Errno::ENOSPC => "ENOSPC",
            Errno::EMLINK => "EMLINK",
            Errno::ENOTEMPTY => "ENOTEMPTY",
            Errno::ELOOP => "ELOOP",
            Errno::ENODATA => "ENODATA",
        }
    }
}
