// The nets of a component whose states can be formed.
ghost use Rattle.forming.specs.Systems.{Formable};
ghost use Rattle.forming.specs.Props.{formable_prop};

// At most 24 nets from 0 to 127, none of them twice.
#[derive(Clone, Copy, Debug, PartialEq, Eq)]
pub(crate) struct Component<'a> {
    pub(crate) nets: &'a [u8],
    pub ghost formable: { Formable nets.now } by { formable_prop nets.now },
}
