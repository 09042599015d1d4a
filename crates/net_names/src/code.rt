ghost use Rattle.std.specs.Prelude.{◌≡◌};
ghost use Rattle.net_names.specs.Code.{number_of, text_of};

use std::fmt;

/// Why a request was refused: an error number's meaning, under its own number here.
#[derive(Clone, Copy, PartialEq, Eq, Debug)]
pub enum Code {
    /// EINVAL
    Invalid,
    /// EEXIST
    Exists,
    /// ENONET
    NoNetwork,
    /// ENODEV
    NoDevice,
    /// ENOENT
    NoEntry,
    /// EBUSY
    Busy,
    /// EPERM
    NotPermitted,
    /// EACCES
    AccessDenied,
    /// ENOSPC
    NoSpace,
    /// ESRCH, the kernel's answer for a route that isn't there
    NoRoute,
}

impl Code {
    /// Its number, from 1 to 10. It isn't the number of `errno.h`.
    pub fn number(&self) -> u8
        ensures { result ≡ number_of self.now }
    {
        match self {
            Code::Invalid => 1,
            Code::Exists => 2,
            Code::NoNetwork => 3,
            Code::NoDevice => 4,
            Code::NoEntry => 5,
            Code::Busy => 6,
            Code::NotPermitted => 7,
            Code::AccessDenied => 8,
            Code::NoSpace => 9,
            Code::NoRoute => 10,
        }
    }

    /// Its name in `errno.h`.
    pub fn text(&self) -> &'static str
        ensures { result.now ≡ text_of self.now }
    {
        match self {
            Code::Invalid => "EINVAL",
            Code::Exists => "EEXIST",
            Code::NoNetwork => "ENONET",
            Code::NoDevice => "ENODEV",
            Code::NoEntry => "ENOENT",
            Code::Busy => "EBUSY",
            Code::NotPermitted => "EPERM",
            Code::AccessDenied => "EACCES",
            Code::NoSpace => "ENOSPC",
            Code::NoRoute => "ESRCH",
        }
    }
}

impl fmt::Display for Code {
    ghost use Rattle.std.specs.Prelude.{Some};
    ghost use Rattle.net_names.specs.Code.{text_of};

    ghost output = { λ code. Some (text_of code) };

    fn fmt<W: fmt::Write>(&self, f: &mut fmt::Formatter<W>) -> fmt::Result {
        f.write_str(self.text())
    }
}
