//! What the controls of a rule file switch on and off.
ghost use Rattle.std.specs.Prelude.{◌≡◌, ◌&&◌, not, List};
ghost use Rattle.rbbi_resolve.specs.Contexts as contexts;
ghost use Rattle.rbbi_resolve.specs.Files as files;
ghost use Rattle.rbbi_resolve.specs.Files.{after_control};
ghost use Rattle.rbbi_resolve.specs.inner.Switchings.{AreSwitches};
ghost use Rattle.rbbi_props.specs.Rows.{File};

/// What the controls so far have switched on.
#[derive(Clone, Copy)]
pub(crate) struct Switches {
    pub(crate) chained: bool,
    pub(crate) quoted_only: bool,
    pub(crate) active: bool,
}

impl Switches {
    /// Before the first statement rules are active, and nothing else is.
    pub(crate) fn new() -> Switches
        ensures { (rows : List File) → AreSwitches result (files.initial_context rows) }
    {
        Switches {
            chained: false,
            quoted_only: false,
            active: true,
        }
    }

    /// The switches after a control.
    pub(crate) fn after(self, name: &str) -> Switches
        ensures { (context : contexts.Context) → AreSwitches self context
            → AreSwitches result (after_control context name.now) }
    {
        let mut next = self;
        if name == "chain" {
            next.chained = true;
        } else if name == "quoted_literals_only" {
            next.quoted_only = true;
        } else if name == "forward" {
            next.active = true;
        } else if ends_active(name) {
            next.active = false;
        }
        next
    }
}

/// Whether a control makes the rules after it inactive.
fn ends_active(name: &str) -> bool
    ensures { result ≡ files.ends_active name.now }
{
    name == "reverse" || name == "safe_forward" || name == "safe_reverse"
}

/// Whether a control is known to be unsupported.
pub(crate) fn is_unsupported(name: &str) -> bool
    ensures { result ≡ files.is_unsupported name.now }
{
    name == "LBCMNoChain" || name == "unquoted_literals"
}

/// Whether a control is neither supported nor known to be unsupported.
pub(crate) fn is_unknown(name: &str) -> bool
    ensures { result ≡ (not (files.is_supported name.now) && not (files.is_unsupported name.now)) }
{
    !is_supported(name) && !is_unsupported(name)
}

/// Whether a control is supported.
fn is_supported(name: &str) -> bool
    ensures { result ≡ files.is_supported name.now }
{
    name == "chain"
        || name == "quoted_literals_only"
        || name == "forward"
        || ends_active(name)
        || name == "lookAheadHardBreak"
}
