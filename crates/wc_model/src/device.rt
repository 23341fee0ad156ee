ghost use Rattle.std.specs.Prelude.{◌≡◌};
ghost use Rattle.wc_model.specs.Run.Devices.{device_inner, device_failures, device_spent};

/// A reader or a writer of std that counts what failed and what was spent. Its bytes are known if
/// those of the inner one are.
#[derive(Drop)]
pub struct Device<D> {
    pub(crate) inner: D,
    pub(crate) failures: u64,
    pub(crate) spent: u64,
}

impl<D> Device<D> {
    /// A device that has done nothing so far.
    pub fn new(inner: D) -> Self
        ensures inner { device_inner result ≡ inner }
        ensures failures { device_failures result ≡ 0 }
        ensures spent { device_spent result ≡ 0 }
    {
        Device {
            inner,
            failures: 0,
            spent: 0,
        }
    }

    /// The reader or writer inside.
    pub fn get_ref(&self) -> &D
        ensures { result.now ≡ device_inner self.now }
    {
        &self.inner
    }
}
