//! Facts for proofs: the ranges of numbers, by their types.

ghost use Rattle.std.specs.Prelude.{◌<◌, ◌^◌};
ghost use Rattle.wrapped_conn.proofs.Sendable.{FitsKey};

use ft_io::Key;

pub(crate) fn fit_key(key: Key)
    ensures { FitsKey key }
{
    let (_ip, _port) = (key.ip, key.port);
}

pub(crate) fn fit_boot(boot: u64)
    ensures { boot < 2 ^ 64 }
{
    let _boot = boot;
}
