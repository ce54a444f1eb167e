//! An archive that is served as words ask for it.
ghost use Rattle.std.specs.Prelude.{◌≡◌, ◌⊎◌, ◌++◌, [], IfOk, OnOk};
ghost use Rattle.fmb_host.specs.Host.{AreSmall};
ghost use Rattle.fmb_run.specs.Asked.{RanOut, known_of};
ghost use Rattle.fmb_serve.specs.Serve.{RanServe, ServeRefuses, ServeServes};
ghost use Rattle.fmb_words.specs.Values.{IsInRange};
ghost use Rattle.session_core.specs.Knowing.{knows};

use avl_values::{Imei, NoMemory};
use doors::Door;
use fmb_host::Host;
use fmb_io::give_up;
use fmb_serve::run_serve;
use fmb_words::ServeWords;
use session_core::{ImeiList, Known};
use std::alloc::Global;
use std::sync::Wait;
use std::thread::Threads;

fn listed(alloc: Global, imeis: &[Imei]) -> Result<ImeiList, NoMemory>
    ensures { IfOk result (λ list. list ≡ imeis.now) }
{
    let mut list = ImeiList::new(alloc);
    'imeis: for imei in imeis {
        list.push(*imei)?;
    }
    Ok(list)
}

fn known_devices(alloc: Global, imeis: &[Imei]) -> Result<Known, NoMemory>
    ensures { IfOk result (λ known. known ≡ known_of imeis.now) }
{
    if imeis.is_empty() {
        Ok(Known::All)
    } else {
        Ok(Known::Listed(listed(alloc, imeis)?))
    }
}

/// Serves an archive as the words say. It may wait.
pub(crate) fn serve_asked<R: Threads + Wait + Sync, H: Host>(
    rt: &R,
    alloc: Global,
    host: &mut H,
    words: &ServeWords<'_>,
) -> u8
where
    H::File: Send,
    H::Gate: Send,
    <H::Gate as Door>::L: Send,
    requires small { AreSmall (H.view host.old).counts }
    requires ranges { IsInRange words.now }
    ensures ran { RanServe H.Gate.L.state H.Gate.L.follows (knows (known_of words.now.devices.items)) words.now.address.now words.now.archive.now words.now.workers words.now.sessions result (H.view host.old) (H.view host.new) ⊎ RanOut result (H.view host.old) (H.view host.new) }
    ensures refuses { ServeRefuses result (H.view host.old) (H.view host.new) }
    ensures serves { ServeServes result (H.view host.old) (H.view host.new) }
{
    match known_devices(alloc, words.devices.as_slice()) {
        Ok(known) => run_serve(
            rt,
            alloc,
            host,
            words.address,
            words.archive,
            &known,
            words.workers,
            words.sessions,
        ),
        Err(NoMemory) => give_up(host),
    }
}
