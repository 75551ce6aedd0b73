//! Access to the parts of a structure.

ghost use Rattle.std.specs.Prelude.{◌≡◌, ◌<◌, ◌≤◌, take, length, All};
ghost use Rattle.dd_structure.specs.Reading.{guard_count};
ghost use Rattle.dd_structure.specs.Spelling.{IsDistance};
ghost use Rattle.dd_structure.specs.TemplateStructure.{template_at};

use crate::layer::Layer;
use crate::reading::chains::guarded_targets;
use crate::structure::Structure;
use sfu_base::Dti;

impl Structure {
    /// The template id of the first template, 0 to 63.
    pub fn offset(&self) -> u8
        ensures value { result ≡ self.now.offset }
        ensures small { result < 64 }
    {
        self.columns.offset
    }

    /// How many decode targets there are, 1 to 32.
    pub fn target_count(&self) -> u8
        ensures value { result ≡ self.now.target_count }
        ensures some { 1 ≤ result }
        ensures few { result ≤ 32 }
    {
        self.columns.target_count
    }

    /// How many chains there are: at most the number of decode targets.
    pub fn chain_count(&self) -> u8
        ensures value { result ≡ self.now.chain_count }
        ensures within { result ≤ self.now.target_count }
        ensures few { result ≤ 32 }
    {
        self.columns.chain_count
    }

    /// How many templates there are, 1 to 64.
    pub fn template_count(&self) -> u8
        ensures value { result ≡ length self.now.templates }
        ensures few { result ≤ 64 }
    {
        self.columns.template_count
    }

    /// The layer of the template with this index. Indices begin at 0.
    pub fn layer(&self, template: u8) -> Layer
        requires { template < length self.now.templates }
        ensures { result ≡ (template_at self.now template).layer }
    {
        self.columns.layers[template as usize]
    }

    /// A template's decode target indications, one for each decode target.
    pub fn indications(&self, template: u8) -> &[Dti]
        requires { template < length self.now.templates }
        ensures value { result.now ≡ (template_at self.now template).indications }
        ensures len { length result.now ≡ self.now.target_count }
        ensures few { length result.now ≤ 32 }
    {
        let columns = &self.columns;
        &columns.indications[template as usize][..columns.target_count as usize]
    }

    /// An array that begins with a template's indications, one for each decode target. Its other entries have no meaning. An array is copied faster
    /// than a slice.
    pub fn indication_row(&self, template: u8) -> &[Dti; 32]
        requires { template < length self.now.templates }
        ensures value { take self.now.target_count result.now ≡ (template_at self.now template).indications }
    {
        &self.columns.indications[template as usize]
    }

    /// A template's frame differences: the distances in frame numbers back to the referenced frames. There are at most 16, and each is 1 to 16.
    pub fn distances(&self, template: u8) -> &[u8]
        requires { template < length self.now.templates }
        ensures value { result.now ≡ (template_at self.now template).distances }
        ensures few { length result.now ≤ 16 }
    {
        let distances = &self.columns.distances[template as usize];
        &distances.items[..distances.count as usize]
    }

    /// How many frame differences a template has, at most 16, and an array that begins with these differences. Its other entries have no meaning.
    pub fn distance_row(&self, template: u8) -> (u8, &[u8; 16])
        requires { template < length self.now.templates }
        ensures value { take result.0 result.1.now ≡ (template_at self.now template).distances }
        ensures few { result.0 ≤ 16 }
    {
        let distances = &self.columns.distances[template as usize];
        (distances.count, &distances.items)
    }

    /// A template's links, one for each chain. A link is the distance in frame numbers back to the chain's previous frame, 1 to 15. It is 0 if no
    /// previous frame is needed.
    pub fn links(&self, template: u8) -> &[u8]
        requires { template < length self.now.templates }
        ensures value { result.now ≡ (template_at self.now template).links }
        ensures len { length result.now ≡ self.now.chain_count }
        ensures few { length result.now ≤ 32 }
    {
        let columns = &self.columns;
        &columns.links[template as usize][..columns.chain_count as usize]
    }

    /// An array that begins with a template's links, one for each chain. Its other entries have no meaning.
    pub fn link_row(&self, template: u8) -> &[u8; 32]
        requires { template < length self.now.templates }
        ensures value { take self.now.chain_count result.now ≡ (template_at self.now template).links }
    {
        &self.columns.links[template as usize]
    }

    /// For each decode target, the index of the chain that protects it. The slice is empty if there are no chains.
    pub fn guards(&self) -> &[u8]
        ensures value { result.now ≡ self.now.guards }
        ensures few { length result.now ≤ 32 }
    {
        let columns = &self.columns;
        &columns.guards[..guarded_targets(columns.chain_count, columns.target_count) as usize]
    }

    /// The width and height in pixels of each spatial id, from id 0 to the greatest. The slice is empty if the structure has no resolutions.
    pub fn resolutions(&self) -> &[(u32, u32)]
        ensures { result.now ≡ self.now.resolutions }
    {
        let resolutions = &self.columns.resolutions;
        &resolutions.items[..resolutions.count as usize]
    }
}
